// An answer as a word of 32 bits: the refusal's number in bits 31:24, which of the call's answers it is in 23:16, and its values
// in 15:0.
ghost use Rattle.std.specs.Prelude.{◌≡◌, ℕ, ◌+◌, ◌*◌, [], ◌∷◌};
ghost use Rattle.answers.specs.Answers.{Said, says, refusal_number, said_by, said_tick, frame_given};
ghost use Rattle.firmware.specs.Words.{answer_word};

use answers::{Answer, FrameAnswer, Refusal, TickAnswer};

// What an accepted call gives.
pub trait Given: Copy {
    // What document 01 says of it.
    ghost given: { Self → Said };

    // Its word.
    fn word(self) -> u32
        ensures { result ≡ answer_word (given self) };
}

// The word of an accepted call's answer, by its place among the call's answers and its values.
fn accepted(which: u8, value: u16) -> u32
    ensures { result ≡ which * 0x10000 + value }
{
    u32::from(which) * 0x1_0000 + u32::from(value)
}

// Offset and byte as one value.
fn pair_of(offset: u8, byte: u8) -> u16
    ensures { result ≡ offset * 256 + byte }
{
    u16::from_be_bytes([offset, byte])
}

// Silent, set, written, dropped, data.
impl Given for FrameAnswer {
    ghost given = { frame_given };

    fn word(self) -> u32 {
        match self {
            FrameAnswer::Silent => accepted(1, 0),
            FrameAnswer::Set => accepted(2, 0),
            FrameAnswer::Written => accepted(3, 0),
            FrameAnswer::Dropped => accepted(4, 0),
            FrameAnswer::Data(value) => accepted(5, value),
        }
    }
}

// The count of bytes.
impl Given for u8 {
    ghost given = { λ count. says 1 (count ∷ []) };

    fn word(self) -> u32 {
        accepted(1, u16::from(self))
    }
}

// The word of a refusal.
#[inline(always)]
fn refused(why: Refusal) -> u32
    ensures { result ≡ refusal_number why * 0x1000000 }
{
    u32::from(u8::from(why)) * 0x100_0000
}

// The word of a tick's answer: nothing, loaded, burned.
#[inline(always)]
pub fn tick_word(answer: TickAnswer) -> u32
    ensures { result ≡ answer_word (said_tick answer) }
{
    match answer {
        TickAnswer::Nothing => accepted(1, 0),
        TickAnswer::Loaded(offset, byte) => accepted(2, pair_of(offset, byte)),
        TickAnswer::Burned(offset, byte) => accepted(3, pair_of(offset, byte)),
        TickAnswer::Refused(why) => refused(why),
    }
}

// The word of an answer that is a result.
#[inline(always)]
pub fn word_of<A: Given>(answer: Answer<A>) -> u32
    ensures { result ≡ answer_word (said_by A.given answer) }
{
    match answer {
        Ok(given) => given.word(),
        Err(why) => refused(why),
    }
}
