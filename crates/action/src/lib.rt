// What a frame asks of the module's parts, decided once.
#![tactic(auto)]

ghost use Rattle.std.specs.Prelude.{◌≡◌};
ghost use Rattle.action.specs.Action.{when, write_to, request_action, action_of};

use mdio::Request;
use registers::Register;
use words::bit;

#[derive(Clone, Copy)]
pub enum Action {
    // Powered off: refusal 7.
    Refused,
    // Not for this module.
    Silent,
    SetAddress(u16),
    // A write that changes nothing.
    Dropped,
    Reset,
    // A word for 8000.
    Command(u16),
    // A customer byte: offset, byte.
    Customer(u8, u8),
    // A control by its number, and the word for it.
    Control(u8, u16),
    // A register, and whether the address is incremented afterwards.
    Read(Register, bool),
}

// A write that is taken, or dropped.
fn when(taken: bool, action: Action) -> Action
    ensures { result ≡ when taken action }
{
    if taken { action } else { Action::Dropped }
}

fn write_to(register: Register, busy: bool, value: u16) -> Action
    ensures { result ≡ write_to register busy value }
{
    match register {
        Register::PmaControl => when(bit(15, value), Action::Reset),
        Register::NvrControl => when(!busy, Action::Command(value)),
        Register::Customer(offset) => when(!busy, Action::Customer(offset, (value % 256) as u8)),
        Register::Control(i) => Action::Control(i, value),
        _ => Action::Dropped,
    }
}

fn request_action(request: Request, address: u16, busy: bool) -> Action
    ensures { result ≡ request_action request address busy }
{
    match request {
        Request::Silent => Action::Silent,
        Request::SetAddress(a) => Action::SetAddress(a),
        Request::Write(value) => {
            let register = Register::at(address);
            write_to(register, busy, value)
        }
        Request::Read => {
            let register = Register::at(address);
            Action::Read(register, false)
        }
        Request::ReadIncrement => {
            let register = Register::at(address);
            Action::Read(register, true)
        }
    }
}

// What a frame asks of a module with this power, port and address register, a job under way (busy) or not.
#[tactic(auto, unfolding(crate::specs::Action::action_of))]
pub fn decide(powered: bool, port: u8, address: u16, busy: bool, word: u32) -> Action
    ensures { result ≡ action_of powered port address busy word }
{
    if powered {
        let request = Request::of(word, port);
        request_action(request, address, busy)
    } else {
        Action::Refused
    }
}
