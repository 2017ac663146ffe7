// The library for C: each of firmware's calls for C under its own name, with the same clauses.
#![tactic(auto)]

ghost use Rattle.std.specs.Prelude.{◌≡◌};
ghost use Rattle.dom.specs.Readout.{tenths_of};
ghost use Rattle.answers.specs.Answers.{said_tick, said_frame, said_unsaved};
ghost use Rattle.store.specs.declared.Cut.TheVariants.{Clean, Torn};
ghost use Rattle.xenpak.specs.Calls.{tick, power_on, power_cut, reset_pin, lines, sample};
ghost use Rattle.xenpak.specs.Frame.{frame};
ghost use Rattle.reads.specs.Reads.{unsaved_of, line_of, counter_of, stored_at};
ghost use Rattle.creation.specs.Creation.{make};
ghost use Rattle.settling.specs.Settling.{settle};
ghost use Rattle.firmware.specs.Words.{answer_word, called_by, settled_by};

use alarms::Lines;
use dom::Sample;
use firmware::calls;
use firmware::calls::{Called, Settled};
use xenpak::Module;

// ---- on a lent record

// A tick.
#[unsafe(no_mangle)]
pub extern "C" fn xenpak_tick(m: &mut Module) -> u32
    ensures { (result ≡ answer_word (said_tick (tick m.old).answer)) × (m.new ≡ (tick m.old).next) }
{
    firmware::xenpak_tick(m)
}

// A frame.
#[unsafe(no_mangle)]
pub extern "C" fn xenpak_frame(m: &mut Module, word: u32) -> u32
    ensures { (result ≡ answer_word (said_frame (frame m.old word).answer)) × (m.new ≡ (frame m.old word).next) }
{
    firmware::xenpak_frame(m, word)
}

// How much is unsaved.
#[unsafe(no_mangle)]
pub extern "C" fn xenpak_unsaved(m: &Module) -> u32
    ensures { result ≡ answer_word (said_unsaved (unsaved_of m.now)) }
{
    firmware::xenpak_unsaved(m)
}

// ---- by value

// Making.
#[unsafe(no_mangle)]
pub extern "C" fn xenpak_make(port: u8, image: &[u8], thresholds: &[u8]) -> Called
    ensures { result ≡ called_by (make port image.now thresholds.now) }
{
    calls::xenpak_make(port, image, thresholds)
}

// Power-on.
#[unsafe(no_mangle)]
pub extern "C" fn xenpak_power_on(m: Module) -> Called
    ensures { result ≡ called_by (power_on m) }
{
    calls::xenpak_power_on(m)
}

// A clean cut.
#[unsafe(no_mangle)]
pub extern "C" fn xenpak_cut(m: Module) -> Called
    ensures { result ≡ called_by (power_cut m Clean) }
{
    calls::xenpak_cut(m)
}

// A torn cut, with its byte.
#[unsafe(no_mangle)]
pub extern "C" fn xenpak_cut_torn(m: Module, byte: u8) -> Called
    ensures { result ≡ called_by (power_cut m (Torn byte)) }
{
    calls::xenpak_cut_torn(m, byte)
}

// The reset pin.
#[unsafe(no_mangle)]
pub extern "C" fn xenpak_reset_pin(m: Module) -> Called
    ensures { result ≡ called_by (reset_pin m) }
{
    calls::xenpak_reset_pin(m)
}

// The lines that the optics report.
#[unsafe(no_mangle)]
pub extern "C" fn xenpak_lines(m: Module, given: Lines) -> Called
    ensures { result ≡ called_by (lines m given) }
{
    calls::xenpak_lines(m, given)
}

// A sample of the diagnostics.
#[unsafe(no_mangle)]
pub extern "C" fn xenpak_sample(m: Module, given: Sample) -> Called
    ensures { result ≡ called_by (sample m given) }
{
    calls::xenpak_sample(m, given)
}

// Settling, with its budget in ticks.
#[unsafe(no_mangle)]
pub extern "C" fn xenpak_settle(m: Module, budget: u32) -> Settled
    ensures { result ≡ settled_by (settle m budget) }
{
    calls::xenpak_settle(m, budget)
}

// The alarm line, LASI.
#[unsafe(no_mangle)]
pub extern "C" fn xenpak_line(m: Module) -> bool
    ensures { result ≡ line_of m }
{
    calls::xenpak_line(m)
}

// Data answers since power-on or reset.
#[unsafe(no_mangle)]
pub extern "C" fn xenpak_counter(m: Module) -> u16
    ensures { result ≡ counter_of m }
{
    calls::xenpak_counter(m)
}

// The byte of the store at an offset.
#[unsafe(no_mangle)]
pub extern "C" fn xenpak_stored(m: Module, offset: u8) -> u8
    ensures { result ≡ stored_at m offset }
{
    calls::xenpak_stored(m, offset)
}

// A temperature code in tenths of a degree.
#[unsafe(no_mangle)]
pub extern "C" fn xenpak_tenths(code: i16) -> i16
    ensures { result ≡ tenths_of code }
{
    calls::xenpak_tenths(code)
}
