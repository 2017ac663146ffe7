// Settling: ticks until no job is due or the budget is spent.
#![tactic(auto)]

ghost use Rattle.std.specs.Prelude.{◌≡◌, true};
ghost use Rattle.settling.specs.Settling.{settled, settle};

use answers::{Answer, Refusal};
use store::move_byte;
use work::{after_work, work_of};
use xenpak::{Module, Outcome};

// Ticks of a powered module until no job is due or the budget is spent, made on its job and bytes: the record is copied
// once, and not at each tick.
fn settled(mut m: Module, budget: u32) -> Outcome<Answer<u32>>
    requires { m.powered ≡ true }
    ensures { result ≡ settled m budget }
{
    let mut job = m.job;
    let mut differing = m.differing;
    let mut store = m.store;
    let mut copy = m.copy;
    let mut done: u32 = 0;
    while done < budget && job.busy() {
        let work = work_of(job, true);
        job = after_work(job, work);
        differing = differing.after_tick(&store, &copy, work);
        move_byte(&mut store, &mut copy, work);
        done += 1;
    }
    m.job = job;
    m.differing = differing;
    m.store = store;
    m.copy = copy;
    Outcome {
        next: m,
        answer: Ok(done),
    }
}

// Ticks until no job is due or the budget is spent, and counts them.
#[tactic(auto, unfolding(crate::specs::Settling::settle))]
pub fn settle(m: Module, budget: u32) -> Outcome<Answer<u32>>
    ensures { result ≡ settle m budget }
{
    if m.powered {
        return settled(m, budget);
    }
    Outcome {
        next: m,
        answer: Err(Refusal::PoweredOff),
    }
}
