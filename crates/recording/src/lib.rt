// A bench recording's bytes as calls: a record is one byte of kind, then a body, whose numbers come high byte first.
#![tactic(auto)]

ghost use Rattle.std.specs.Prelude.{true, ◌≡◌, ◌+◌, ◌<◌, ◌≤◌, length};
ghost use Rattle.recording.specs.Recording.{flaw_number, known, body_length, word, frame_of, sample_of, lines_of, call_of, body_at, item_at};

use alarms::Lines;
use calls::Call;
use dom::{Sample, signed_code};
use store::Cut;
use words::bit;

// Why a recording's own record is refused, before the module is asked.
#[derive(Clone, Copy)]
pub enum Flaw {
    UnknownKind,
    CutShort,
}

// A whole body: the call that it records, and the position after it.
#[derive(Clone, Copy)]
pub struct Body {
    pub call: Call,
    pub next: usize,
}

// What stands at a position of a recording: a kind, as it was read, and what follows it.
#[derive(Clone, Copy)]
pub struct Item {
    pub kind: u8,
    pub body: Result<Body, Flaw>,
}

impl From<Flaw> for u8 {
    // The refusal's number, beside the module's 1 to 8.
    fn from(flaw: Flaw) -> u8
        ensures { result ≡ flaw_number flaw }
    {
        match flaw {
            Flaw::UnknownKind => 9,
            Flaw::CutShort => 10,
        }
    }
}

// The kinds are 01 to 08.
pub fn known(kind: u8) -> bool
    ensures { result ≡ known kind }
{
    (1..=8).contains(&kind)
}

// How many bytes of body follow a kind; none follows an unknown one.
pub fn body_length(kind: u8) -> usize
    ensures { result ≡ body_length kind }
{
    match kind {
        3 => 1,
        5 => 4,
        7 => 8,
        8 => 5,
        _ => 0,
    }
}

// The number of two bytes, high byte first.
fn word(body: &[u8], at: usize) -> u16
    requires { at + 2 ≤ length body.now }
    ensures { result ≡ word body.now at }
{
    u16::from_be_bytes([body[at], body[at + 1]])
}

// The four bytes of a frame, high byte first.
fn frame(body: &[u8]) -> u32
    requires { 4 ≤ length body.now }
    ensures { result ≡ frame_of body.now }
{
    u32::from_be_bytes([body[0], body[1], body[2], body[3]])
}

fn sample(body: &[u8]) -> Sample
    requires { 8 ≤ length body.now }
    ensures { result ≡ sample_of body.now }
{
    Sample {
        temperature: signed_code(word(body, 0)),
        bias: word(body, 2),
        transmit: word(body, 4),
        receive: word(body, 6),
    }
}

// The link levels are in bits 2 to 0 of the last byte.
fn lines(body: &[u8]) -> Lines
    requires { 5 ≤ length body.now }
    ensures { result ≡ lines_of body.now }
{
    let levels = u16::from(body[4]);
    Lines {
        receive: word(body, 0),
        transmit: word(body, 2),
        signal: bit(2, levels),
        block: bit(1, levels),
        lanes: bit(0, levels),
    }
}

// The call of a known kind and its body.
#[tactic(auto, unfolding(crate::specs::Recording::call_of))]
fn call_of(kind: u8, body: &[u8]) -> Call
    requires whole { body_length kind ≤ length body.now }
    requires known_kind { known kind ≡ true }
    ensures { result ≡ call_of kind body.now }
{
    match kind {
        1 => Call::PowerOn,
        2 => Call::Cut(Cut::Clean),
        3 => Call::Cut(Cut::Torn(body[0])),
        4 => Call::ResetPin,
        5 => Call::Frame(frame(body)),
        6 => Call::Tick,
        7 => Call::Sample(sample(body)),
        _ => Call::Lines(lines(body)),
    }
}

// What follows a kind: the body of a known one, if it is whole.
#[tactic(auto, unfolding(crate::specs::Recording::body_at))]
fn body_at(kind: u8, bytes: &[u8], at: usize) -> Result<Body, Flaw>
    requires { at < length bytes.now }
    ensures { result ≡ body_at kind bytes.now at }
{
    if !known(kind) {
        return Err(Flaw::UnknownKind);
    }
    let start = at + 1;
    let length = body_length(kind);
    if bytes.len() - start < length {
        return Err(Flaw::CutShort);
    }
    Ok(Body {
        call: call_of(kind, &bytes[start..]),
        next: start + length,
    })
}

// The record at a position; none where no byte is left.
#[tactic(auto, unfolding(crate::specs::Recording::item_at))]
pub fn item_at(bytes: &[u8], at: usize) -> Option<Item>
    ensures { result ≡ item_at bytes.now at }
{
    let kind = *bytes.get(at)?;
    Some(Item {
        kind,
        body: body_at(kind, bytes, at),
    })
}
