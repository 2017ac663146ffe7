// Every other call for C, by value: those that change the record take one and hand back the one after it; firmware_c exports them.
ghost use Rattle.std.specs.Prelude.{◌≡◌};
ghost use Rattle.dom.specs.Readout.{tenths_of};
ghost use Rattle.store.specs.declared.Cut.TheVariants.{Clean, Torn};
ghost use Rattle.xenpak.specs.Calls.{power_on, power_cut, reset_pin, lines, sample};
ghost use Rattle.reads.specs.Reads.{line_of, counter_of, stored_at};
ghost use Rattle.creation.specs.Creation.{make};
ghost use Rattle.settling.specs.Settling.{settle};
ghost use Rattle.firmware.specs.Words.{called_by, settled_by};

use alarms::Lines;
use answers::{Answer, number};
use creation::make;
use dom::Sample;
use dom::readout::tenths;
use reads::{alarm_line, counter, stored};
use settling::settle;
use store::Cut;
use xenpak::{Module, Outcome};

// The record after a call, and the refusal's number or 0.
#[repr(C)]
#[derive(Clone, Copy)]
pub struct Called {
    pub next: Module,
    pub refusal: u8,
}

// The record after settling, the ticks made, and the refusal's number or 0.
#[repr(C)]
#[derive(Clone, Copy)]
pub struct Settled {
    pub next: Module,
    pub ticks: u32,
    pub refusal: u8,
}

impl From<Outcome<Answer<()>>> for Called {
    fn from(outcome: Outcome<Answer<()>>) -> Called
        ensures { result ≡ called_by outcome }
    {
        Called {
            next: outcome.next,
            refusal: number(outcome.answer),
        }
    }
}

impl From<Outcome<Answer<u32>>> for Settled {
    fn from(outcome: Outcome<Answer<u32>>) -> Settled
        ensures { result ≡ settled_by outcome }
    {
        Settled {
            next: outcome.next,
            ticks: outcome.answer.unwrap_or(0),
            refusal: number(outcome.answer),
        }
    }
}

// Making.
pub fn xenpak_make(port: u8, image: &[u8], thresholds: &[u8]) -> Called
    ensures { result ≡ called_by (make port image.now thresholds.now) }
{
    Called::from(make(port, image, thresholds))
}

// Power-on.
pub fn xenpak_power_on(m: Module) -> Called
    ensures { result ≡ called_by (power_on m) }
{
    Called::from(m.power_on())
}

// A clean cut.
pub fn xenpak_cut(m: Module) -> Called
    ensures { result ≡ called_by (power_cut m Clean) }
{
    Called::from(m.power_cut(Cut::Clean))
}

// A torn cut, with its byte.
pub fn xenpak_cut_torn(m: Module, byte: u8) -> Called
    ensures { result ≡ called_by (power_cut m (Torn byte)) }
{
    Called::from(m.power_cut(Cut::Torn(byte)))
}

// The reset pin.
pub fn xenpak_reset_pin(m: Module) -> Called
    ensures { result ≡ called_by (reset_pin m) }
{
    Called::from(m.reset_pin())
}

// The lines that the optics report.
pub fn xenpak_lines(m: Module, given: Lines) -> Called
    ensures { result ≡ called_by (lines m given) }
{
    Called::from(m.lines(given))
}

// A sample of the diagnostics.
pub fn xenpak_sample(m: Module, given: Sample) -> Called
    ensures { result ≡ called_by (sample m given) }
{
    Called::from(m.sample(given))
}

// Settling, with its budget in ticks.
pub fn xenpak_settle(m: Module, budget: u32) -> Settled
    ensures { result ≡ settled_by (settle m budget) }
{
    Settled::from(settle(m, budget))
}

// The alarm line, LASI.
pub fn xenpak_line(m: Module) -> bool
    ensures { result ≡ line_of m }
{
    alarm_line(m)
}

// Data answers since power-on or reset.
pub fn xenpak_counter(m: Module) -> u16
    ensures { result ≡ counter_of m }
{
    counter(m)
}

// The byte of the store at an offset.
pub fn xenpak_stored(m: Module, offset: u8) -> u8
    ensures { result ≡ stored_at m offset }
{
    stored(m, offset)
}

// A temperature code in tenths of a degree.
pub fn xenpak_tenths(code: i16) -> i16
    ensures { result ≡ tenths_of code }
{
    tenths(code)
}
