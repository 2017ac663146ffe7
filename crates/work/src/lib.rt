// A job's ticks: what each is to do, and the job after it.
#![tactic(auto)]

ghost use Rattle.std.specs.Prelude.{◌≡◌};
ghost use Rattle.work.specs.Work.{work_of, advanced, after_work};

use jobs::{BURN, Job, NONE};

// What a tick is to do.
#[derive(Clone, Copy)]
pub enum Work {
    // Powered off: refusal 7.
    Refused,
    Nothing,
    Load(u8),
    Burn(u8),
}

// What a tick is to do.
pub fn work_of(job: Job, powered: bool) -> Work
    ensures { result ≡ work_of powered job }
{
    if powered {
        if job.kind == NONE {
            return Work::Nothing;
        }
        if job.kind == BURN {
            return Work::Burn(job.due);
        }
        return Work::Load(job.due);
    }
    Work::Refused
}

// After a byte: the next offset is due, or the job is done.
fn advanced(mut job: Job) -> Job
    ensures { result ≡ advanced job }
{
    let due = job.due;
    if due < job.last {
        job.due = due + 1;
        return job;
    }
    job.kind = NONE;
    job.ended = 1;
    job
}

// After a tick.
pub fn after_work(job: Job, work: Work) -> Job
    ensures { result ≡ after_work job work }
{
    match work {
        Work::Refused => job,
        Work::Nothing => job,
        Work::Load(_) => advanced(job),
        Work::Burn(_) => advanced(job),
    }
}
