// The address register, and the count of data answers.
#![tactic(auto)]

ghost use Rattle.std.specs.Prelude.{◌≡◌};
ghost use Rattle.bus.specs.Bus.{one_more, next_address, bus_read, bus_after};

use action::Action;

#[repr(C)]
#[derive(Clone, Copy)]
pub struct Bus {
    pub address: u16,
    pub counter: u16,
}

// One more, but not past FFFF.
fn one_more(n: u16) -> u16
    ensures { result ≡ one_more n }
{
    n.saturating_add(1)
}

fn next_address(address: u16, increment: bool) -> u16
    ensures { result ≡ next_address address increment }
{
    if increment {
        one_more(address)
    } else {
        address
    }
}

impl Bus {
    pub const ZERO: Bus = Bus {
        address: 0,
        counter: 0,
    };

    // After a data answer.
    fn read(self, increment: bool) -> Bus
        ensures { result ≡ bus_read self increment }
    {
        Bus {
            address: next_address(self.address, increment),
            counter: one_more(self.counter),
        }
    }

    // After a frame.
    pub fn after(mut self, action: Action) -> Bus
        ensures { result ≡ bus_after self action }
    {
        match action {
            Action::SetAddress(address) => {
                self.address = address;
                self
            }
            Action::Reset => Bus::ZERO,
            Action::Read(_, increment) => self.read(increment),
            _ => self,
        }
    }
}
