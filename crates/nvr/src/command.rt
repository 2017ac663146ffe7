// A word written to register 8000: the bits that it keeps, and the command in it.
ghost use Rattle.std.specs.Prelude.{◌≡◌};
ghost use Rattle.nvr.specs.Command.{kept_bits, burn_in, command_by, command_of};

use crate::image::Region;
use words::bit;

// What a word written to 8000 starts.
#[derive(Clone, Copy)]
pub enum Command {
    LoadAll,
    LoadByte(u8),
    // Offsets 119 to 166.
    BurnCustomer,
    BurnByte(u8),
    // Status failed, and no job.
    Failed,
}

// The bits of the word that the register keeps: offset 15:8, write 5, command 1:0.
pub fn kept_bits(word: u16) -> u16
    ensures { result ≡ kept_bits word }
{
    word & 0xff23
}

// A one-byte burn: only a customer byte is burned.
fn burn_in(region: Region, offset: u8) -> Command
    ensures { result ≡ burn_in region offset }
{
    match region {
        Region::Customer => Command::BurnByte(offset),
        _ => Command::Failed,
    }
}

// The command of bits 1:0, by the write bit and the offset.
fn command_by(code: u16, write: bool, offset: u8) -> Command
    ensures { result ≡ command_by code write offset }
{
    match code {
        3 => if write {
            Command::BurnCustomer
        } else {
            Command::LoadAll
        },
        2 => if write {
            burn_in(Region::from(offset), offset)
        } else {
            Command::LoadByte(offset)
        },
        _ => Command::Failed,
    }
}

impl From<u16> for Command {
    // The command in a word written to 8000.
    #[tactic(auto, unfolding(crate::specs::Command::command_of))]
    fn from(word: u16) -> Command
        ensures { result ≡ command_of word }
    {
        command_by(word % 4, bit(5, word), (word / 256) as u8)
    }
}
