// What can be read from the record, at any time and without refusal; and how much is unsaved, which needs power.
#![tactic(auto)]

ghost use Rattle.std.specs.Prelude.{◌≡◌};
ghost use Rattle.reads.specs.Reads.{line_of, counter_of, stored_at, unsaved_of};

use answers::{Answer, to_unsaved};
use lasi::line;
use store::byte_at;
use xenpak::Module;

// The alarm line, LASI.
pub fn alarm_line(m: Module) -> bool
    ensures { result ≡ line_of m }
{
    line(m.alarms, m.powered)
}

// Data answers since power-on or reset.
pub fn counter(m: Module) -> u16
    ensures { result ≡ counter_of m }
{
    m.bus.counter
}

// The byte of the store at an offset.
pub fn stored(m: Module, offset: u8) -> u8
    ensures { result ≡ stored_at m offset }
{
    let store = m.store;
    byte_at(&store, offset)
}

// How many customer bytes differ between copy and store. Refused with 7 when off.
pub fn unsaved(m: Module) -> Answer<u8>
    ensures { result ≡ unsaved_of m }
{
    to_unsaved(m.powered, m.differing.copy)
}
