// A module for firmware: tick and frame over a lent record, updated there, how much of one is unsaved, and every call for C, which
// firmware_c exports.
#![tactic(auto)]

ghost use Rattle.std.specs.Prelude.{◌≡◌};
ghost use Rattle.answers.specs.Answers.{said_tick, said_frame, said_unsaved};
ghost use Rattle.xenpak.specs.Calls.{tick};
ghost use Rattle.xenpak.specs.Frame.{frame};
ghost use Rattle.reads.specs.Reads.{unsaved_of};
ghost use Rattle.firmware.specs.Words.{answer_word};

mod answer_words;
pub mod calls;

use answer_words::{tick_word, word_of};
use answers::{Answer, FrameAnswer, TickAnswer};
use reads::unsaved;
use xenpak::Module;

// A tick of a lent record.
pub fn tick(m: &mut Module) -> TickAnswer
    ensures { (result ≡ (tick m.old).answer) × (m.new ≡ (tick m.old).next) }
{
    let r = (*m).tick();
    *m = r.next;
    r.answer
}

// A frame to a lent record.
pub fn frame(m: &mut Module, word: u32) -> Answer<FrameAnswer>
    ensures { (result ≡ (frame m.old word).answer) × (m.new ≡ (frame m.old word).next) }
{
    let r = (*m).frame(word);
    *m = r.next;
    r.answer
}

// A tick of a lent record, for C.
pub fn xenpak_tick(m: &mut Module) -> u32
    ensures { (result ≡ answer_word (said_tick (tick m.old).answer)) × (m.new ≡ (tick m.old).next) }
{
    tick_word(tick(m))
}

// A frame to a lent record, for C. It stands between `frame` and the exported function for speed too: without it the compiled code
// copies the whole record once more, 322 instructions in place of 235.
pub fn xenpak_frame(m: &mut Module, word: u32) -> u32
    ensures { (result ≡ answer_word (said_frame (frame m.old word).answer)) × (m.new ≡ (frame m.old word).next) }
{
    word_of(frame(m, word))
}

// How much of a lent record is unsaved, for C.
pub fn xenpak_unsaved(m: &Module) -> u32
    ensures { result ≡ answer_word (said_unsaved (unsaved_of m.now)) }
{
    word_of(unsaved(*m))
}
