// What a step gives, behind an equals sign.
use answers::{FrameAnswer, Refusal, TickAnswer};
use calls::CallAnswer;
use std::fmt;
use std::fmt::Display;

// What a step gives: the answer of a call, or what it has found.
#[derive(Clone, Copy)]
pub enum Given {
    Accepted,
    Frame(FrameAnswer),
    Tick(TickAnswer),
    Refused(Refusal),
    Unsaved(u8),
    Number(usize),
    Tenths(i16),
    Stored(u8),
    Unknown,
}

impl From<CallAnswer> for Given {
    fn from(answer: CallAnswer) -> Given {
        match answer {
            CallAnswer::Plain(Ok(())) => Given::Accepted,
            CallAnswer::Frame(Ok(given)) => Given::Frame(given),
            CallAnswer::Tick(given) => Given::Tick(given),
            CallAnswer::Plain(Err(why)) | CallAnswer::Frame(Err(why)) => Given::Refused(why),
        }
    }
}

// A number in it: data and stored bytes have four hexadecimal digits, all others are decimal.
#[derive(Clone, Copy)]
enum Number {
    Decimal(usize),
    Word(u16),
    Magnitude(u16),
}

impl Display for Number {
    fn fmt<W: fmt::Write>(&self, f: &mut fmt::Formatter<W>) -> fmt::Result {
        match *self {
            Number::Decimal(n) => write!(f, "={n}"),
            Number::Word(n) => write!(f, "={n:04x}"),
            Number::Magnitude(n) => write!(f, "{n}"),
        }
    }
}

// Where standard output fails, the play goes on.
pub fn text(rt: &impl Print, s: &[u8]) {
    let _ = rt.write_all(s);
}

fn put(rt: &impl Print, number: Number) {
    let _ = rt.print(number);
}

// A tick's offset and byte.
fn moved(rt: &impl Print, name: &[u8], offset: u8, byte: u8) {
    text(rt, name);
    put(rt, Number::Decimal(usize::from(offset)));
    put(rt, Number::Word(u16::from(byte)));
}

// Writes what a step gives, each piece by itself: where one cannot be written, the next still may be.
pub fn show(rt: &impl Print, given: Given) {
    match given {
        Given::Accepted => text(rt, b"=ok"),
        Given::Frame(FrameAnswer::Silent) => text(rt, b"=silent"),
        Given::Frame(FrameAnswer::Set) => text(rt, b"=set"),
        Given::Frame(FrameAnswer::Written) => text(rt, b"=written"),
        Given::Frame(FrameAnswer::Dropped) => text(rt, b"=dropped"),
        Given::Frame(FrameAnswer::Data(value)) => put(rt, Number::Word(value)),
        Given::Tick(TickAnswer::Nothing) => text(rt, b"=nothing"),
        Given::Tick(TickAnswer::Loaded(offset, byte)) => moved(rt, b"=loaded", offset, byte),
        Given::Tick(TickAnswer::Burned(offset, byte)) => moved(rt, b"=burned", offset, byte),
        Given::Refused(why) | Given::Tick(TickAnswer::Refused(why)) => {
            put(rt, Number::Decimal(usize::from(u8::from(why))));
        }
        Given::Unsaved(n) => {
            text(rt, b"=bytes");
            put(rt, Number::Decimal(usize::from(n)));
        }
        Given::Number(n) => put(rt, Number::Decimal(n)),
        Given::Tenths(n) => {
            text(rt, b"=");
            if n < 0 {
                text(rt, b"-");
            }
            put(rt, Number::Magnitude(n.unsigned_abs()));
        }
        Given::Stored(byte) => put(rt, Number::Word(u16::from(byte))),
        Given::Unknown => text(rt, b"=?"),
    }
}
