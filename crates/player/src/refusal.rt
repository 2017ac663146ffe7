// The number of the module's refusal in an answer, 0 where the call is accepted.
ghost use Rattle.std.specs.Prelude.{◌≡◌};
ghost use Rattle.calls.specs.Calls.{said};

use answers::{TickAnswer, number};
use calls::CallAnswer;

pub(crate) fn refusal_of(answer: CallAnswer) -> u8
    ensures { result ≡ (said answer).refusal }
{
    match answer {
        CallAnswer::Plain(plain) => number(plain),
        CallAnswer::Frame(framed) => number(framed),
        CallAnswer::Tick(TickAnswer::Refused(why)) => u8::from(why),
        CallAnswer::Tick(_) => 0,
    }
}
