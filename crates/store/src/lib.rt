// Store and copy: the byte that a tick moves and its answer, the byte that a cut leaves, and what a frame leaves in the
// copy.
#![tactic(auto)]

ghost use Rattle.std.specs.Prelude.{◌≡◌, get_or};
ghost use Rattle.store.specs.Bytes.{Moved, torn_store, zeros, written_copy};

use action::Action;
use answers::{Refusal, TickAnswer};
use work::Work;

// A power cut: clean, or torn with a byte (document 01: struck).
#[derive(Clone, Copy)]
pub enum Cut {
    Clean,
    Torn(u8),
}

// A tick's byte goes from store to copy, or from copy to store.
pub fn move_byte(store: &mut [u8; 256], copy: &mut [u8; 256], work: Work) -> TickAnswer
    ensures { Moved store.old copy.old work result store.new copy.new }
{
    match work {
        Work::Refused => TickAnswer::Refused(Refusal::PoweredOff),
        Work::Nothing => TickAnswer::Nothing,
        Work::Load(due) => {
            let at = due as usize;
            let byte = store[at];
            copy[at] = byte;
            TickAnswer::Loaded(due, byte)
        }
        Work::Burn(due) => {
            let at = due as usize;
            let byte = copy[at];
            store[at] = byte;
            TickAnswer::Burned(due, byte)
        }
    }
}

// The byte of a torn cut goes into the store where a burn is due, and nowhere else.
pub fn tear(store: &mut [u8; 256], work: Work, cut: Cut)
    ensures { store.new ≡ torn_store store.old work cut }
{
    match work {
        Work::Burn(due) => match cut {
            Cut::Clean => {}
            Cut::Torn(byte) => {
                store[due as usize] = byte;
            }
        },
        _ => {}
    }
}

// The copy begins as 256 zeros.
#[tactic(auto, unfolding(crate::specs::Bytes::zeros))]
fn zero(copy: &mut [u8; 256])
    ensures { copy.new ≡ zeros 256 }
{
    *copy = [0; 256];
}

// What a frame leaves in the copy.
pub fn write_copy(copy: &mut [u8; 256], action: Action)
    ensures { copy.new ≡ written_copy copy.old action }
{
    match action {
        Action::Reset => zero(copy),
        Action::Customer(offset, byte) => {
            copy[offset as usize] = byte;
        }
        _ => {}
    }
}

// The byte at an offset, 0 past the last.
pub fn byte_at<const N: usize>(bytes: &[u8; N], offset: u8) -> u8
    ensures { result ≡ get_or bytes.now offset 0 }
{
    bytes.get(usize::from(offset)).copied().unwrap_or(0)
}
