// Any call of the lists that a module may live through, with its arguments.
#![tactic(auto)]

ghost use Rattle.std.specs.Prelude.{◌≡◌};
ghost use Rattle.calls.specs.Calls.{step};

use alarms::Lines;
use answers::{Answer, FrameAnswer, TickAnswer};
use dom::Sample;
use store::Cut;
use xenpak::{Module, Outcome};

#[derive(Clone, Copy)]
pub enum Call {
    PowerOn,
    Cut(Cut),
    ResetPin,
    Frame(u32),
    Tick,
    Lines(Lines),
    Sample(Sample),
}

// The answer of a call.
#[derive(Clone, Copy)]
pub enum CallAnswer {
    Plain(Answer<()>),
    Frame(Answer<FrameAnswer>),
    Tick(TickAnswer),
}

// The same outcome, its answer as one of those of calls.
fn told<A, F: FnOnce(A) -> CallAnswer>(outcome: Outcome<A>, tell: F) -> Outcome<CallAnswer>
    requires { F.pre tell outcome.answer }
    ensures answered { F.post tell outcome.answer result.answer }
    ensures kept { result.next ≡ outcome.next }
{
    Outcome {
        next: outcome.next,
        answer: tell(outcome.answer),
    }
}

impl Call {
    // The call on a module.
    #[tactic(auto, unfolding(crate::specs::Calls::step))]
    pub fn on(self, m: Module) -> Outcome<CallAnswer>
        ensures { result ≡ step m self }
    {
        match self {
            Call::PowerOn => told(m.power_on(), CallAnswer::Plain),
            Call::Cut(cut) => told(m.power_cut(cut), CallAnswer::Plain),
            Call::ResetPin => told(m.reset_pin(), CallAnswer::Plain),
            Call::Frame(word) => told(m.frame(word), CallAnswer::Frame),
            Call::Tick => told(m.tick(), CallAnswer::Tick),
            Call::Lines(lines) => told(m.lines(lines), CallAnswer::Plain),
            Call::Sample(sample) => told(m.sample(sample), CallAnswer::Plain),
        }
    }
}
