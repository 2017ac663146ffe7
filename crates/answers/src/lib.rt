// What each call answers.
#![tactic(auto)]

ghost use Rattle.std.specs.Prelude.{◌≡◌};
ghost use Rattle.answers.specs.Answers.{refusal_number, number_in, creation_answer, power_on_answer, call_answer, frame_answer, unsaved_answer};

use action::Action;

// Why a call is refused.
#[derive(Clone, Copy)]
pub enum Refusal {
    Port,
    ImageLength,
    ThresholdsLength,
    Checksum,
    ThresholdOrder,
    Temperature,
    PoweredOff,
    PoweredOn,
}

// An answer is the refusal, or what the accepted call gives: nothing at making, power-on, cut, reset pin, lines and sample,
// the count of ticks at settling, and of bytes at the question how many are unsaved.
pub type Answer<A> = Result<A, Refusal>;

// What an accepted frame gives.
#[derive(Clone, Copy)]
pub enum FrameAnswer {
    Silent,
    Set,
    Written,
    Dropped,
    Data(u16),
}

// The answer of a tick: loaded and burned come with offset and byte. Its refusal is one of its cases, since the compiled entry
// chooses once among them: with a result around them a tick that has no job would copy store and copy.
#[derive(Clone, Copy)]
pub enum TickAnswer {
    Nothing,
    Loaded(u8, u8),
    Burned(u8, u8),
    Refused(Refusal),
}

impl From<Refusal> for u8 {
    // Document 01's number of the refusal.
    fn from(why: Refusal) -> u8
        ensures { result ≡ refusal_number why }
    {
        match why {
            Refusal::Port => 1,
            Refusal::ImageLength => 2,
            Refusal::ThresholdsLength => 3,
            Refusal::Checksum => 4,
            Refusal::ThresholdOrder => 5,
            Refusal::Temperature => 6,
            Refusal::PoweredOff => 7,
            Refusal::PoweredOn => 8,
        }
    }
}

// The number of the refusal in an answer, 0 where the call is accepted.
pub fn number<A: Copy>(answer: Answer<A>) -> u8
    ensures { result ≡ number_in answer }
{
    match answer {
        Ok(_) => 0,
        Err(why) => u8::from(why),
    }
}

// ---- which answer a call gets

// Of creation (document 01: making), by whether port, lengths of image and thresholds, checksum and order of the thresholds are
// right: refusals 1 to 5, the lowest first.
pub fn to_creation(
    port: bool,
    image: bool,
    thresholds: bool,
    checksum: bool,
    ordered: bool,
) -> Answer<()>
    ensures { result ≡ creation_answer port image thresholds checksum ordered }
{
    if !port {
        return Err(Refusal::Port);
    }
    if !image {
        return Err(Refusal::ImageLength);
    }
    if !thresholds {
        return Err(Refusal::ThresholdsLength);
    }
    if !checksum {
        return Err(Refusal::Checksum);
    }
    if !ordered {
        return Err(Refusal::ThresholdOrder);
    }
    Ok(())
}

// Of power-on: 8 when powered.
pub fn to_power_on(powered: bool) -> Answer<()>
    ensures { result ≡ power_on_answer powered }
{
    if powered {
        return Err(Refusal::PoweredOn);
    }
    Ok(())
}

// Of cut, reset pin, lines and sample: 7 when off, then 6 where a sample's temperature is not acceptable.
pub fn to_call(powered: bool, acceptable: bool) -> Answer<()>
    ensures { result ≡ call_answer powered acceptable }
{
    if !powered {
        return Err(Refusal::PoweredOff);
    }
    if !acceptable {
        return Err(Refusal::Temperature);
    }
    Ok(())
}

// Of a frame that reads this value.
pub fn to_frame(action: Action, value: u16) -> Answer<FrameAnswer>
    ensures { result ≡ frame_answer action value }
{
    match action {
        Action::Refused => Err(Refusal::PoweredOff),
        Action::Silent => Ok(FrameAnswer::Silent),
        Action::SetAddress(_) => Ok(FrameAnswer::Set),
        Action::Dropped => Ok(FrameAnswer::Dropped),
        Action::Read(_, _) => Ok(FrameAnswer::Data(value)),
        _ => Ok(FrameAnswer::Written),
    }
}

// Of the question how many bytes are unsaved, where so many are: 7 when off.
pub fn to_unsaved(powered: bool, count: u8) -> Answer<u8>
    ensures { result ≡ unsaved_answer powered count }
{
    if powered {
        Ok(count)
    } else {
        Err(Refusal::PoweredOff)
    }
}
