// The XENPAK management core: the module's record and its calls. A call is refused, or each part of the record reacts.
#![tactic(auto)]

ghost use Rattle.std.specs.Prelude.{◌≡◌};
ghost use Rattle.xenpak.specs.Frame.{module_after, frame};
ghost use Rattle.xenpak.specs.Calls.{taken, started, power_on, power_cut, reset_pin, tick, lines, sample};

use action::{Action, decide};
use alarms::{Alarms, Lines};
use answers::{Answer, FrameAnswer, TickAnswer, to_call, to_frame, to_power_on};
use bus::Bus;
use differing::Differing;
use dom::Sample;
use flags::flags_of;
use jobs::{FIRST_COMMAND, Job, command_after};
use monitor::Monitor;
use store::{Cut, move_byte, tear, write_copy};
use thresholds::thresholds_of;
use values::{byte_read, value_read};
use work::{after_work, work_of};

#[repr(C)]
#[derive(Clone, Copy)]
pub struct Module {
    pub copy: [u8; 256],
    pub job: Job,
    pub store: [u8; 256],
    pub differing: Differing,
    pub powered: bool,
    pub port: u8,
    pub thresholds: [u8; 40],
    // The word at 8000 without its status.
    pub command: u16,
    pub bus: Bus,
    pub alarms: Alarms,
    pub monitor: Monitor,
}

// What a call answers, beside the record after it.
#[derive(Clone, Copy)]
pub struct Outcome<A> {
    pub next: Module,
    pub answer: A,
}

// Every call but power-on is refused with 7 when the module is off; a refused call hands the record back as it was.
impl Module {
    // What a call leaves: the record `next` where it is accepted, this one where it is refused.
    fn taken(self, answer: Answer<()>, next: Module) -> Outcome<Answer<()>>
        ensures { result ≡ taken answer self next }
    {
        match answer {
            Ok(()) => Outcome { next, answer },
            Err(_) => Outcome { next: self, answer },
        }
    }

    // What power-on and reset share: a first load starts, with all at zero but port, store, its counts, thresholds, this
    // power and these alarms.
    #[tactic(auto, unfolding(store::specs::Bytes::zeros))]
    fn started(self, powered: bool, alarms: Alarms) -> Module
        ensures { result ≡ started powered alarms self }
    {
        let store = self.store;
        let thresholds = self.thresholds;
        Module {
            store,
            job: Job::FIRST_LOAD,
            copy: [0; 256],
            differing: self.differing.started(),
            powered,
            port: self.port,
            thresholds,
            command: FIRST_COMMAND,
            bus: Bus::ZERO,
            alarms,
            monitor: Monitor::NONE,
        }
    }

    // Power-on: the first load starts, and the lines are zero. Refused with 8 when powered.
    #[tactic(auto, unfolding(crate::specs::Calls::power_on))]
    pub fn power_on(mut self) -> Outcome<Answer<()>>
        ensures { result ≡ power_on self }
    {
        let before = self;
        self = self.started(true, Alarms::NONE);
        before.taken(to_power_on(before.powered), self)
    }

    // The reset pin: the first load starts, and the lines are kept.
    #[tactic(auto, unfolding(crate::specs::Calls::reset_pin))]
    pub fn reset_pin(mut self) -> Outcome<Answer<()>>
        ensures { result ≡ reset_pin self }
    {
        let before = self;
        self = self.started(self.powered, self.alarms.restarted());
        before.taken(to_call(before.powered, true), self)
    }

    // The power goes; a torn cut (document 01: struck) leaves its byte where a burn is due.
    #[tactic(auto, unfolding(crate::specs::Calls::power_cut))]
    pub fn power_cut(mut self, cut: Cut) -> Outcome<Answer<()>>
        ensures { result ≡ power_cut self cut }
    {
        let before = self;
        let work = work_of(self.job, true);
        let copy = self.copy;
        let mut store = self.store;
        self.differing = self.differing.after_cut(&store, &copy, work, cut);
        tear(&mut store, work, cut);
        self.store = store;
        self.powered = false;
        before.taken(to_call(before.powered, true), self)
    }

    // One byte of the job, if one is due.
    #[tactic(auto, unfolding(crate::specs::Calls::tick))]
    pub fn tick(mut self) -> Outcome<TickAnswer>
        ensures { result ≡ tick self }
    {
        let work = work_of(self.job, self.powered);
        let mut store = self.store;
        let mut copy = self.copy;
        self.job = after_work(self.job, work);
        self.differing = self.differing.after_tick(&store, &copy, work);
        let answer = move_byte(&mut store, &mut copy, work);
        self.store = store;
        self.copy = copy;
        Outcome { next: self, answer }
    }

    // The lines report faults and link levels.
    #[tactic(auto, unfolding(crate::specs::Calls::lines))]
    pub fn lines(mut self, given: Lines) -> Outcome<Answer<()>>
        ensures { result ≡ lines self given }
    {
        let before = self;
        self.alarms = self.alarms.lines(given);
        before.taken(to_call(before.powered, true), self)
    }

    // The monitor reports a sample; one out of range is refused with 6.
    #[tactic(auto, unfolding(crate::specs::Calls::sample))]
    pub fn sample(mut self, given: Sample) -> Outcome<Answer<()>>
        ensures { result ≡ sample self given }
    {
        let before = self;
        let thresholds = self.thresholds;
        let flags = flags_of(thresholds_of(&thresholds), given);
        self.alarms = self.alarms.sampled(flags);
        self.monitor = self.monitor.sampled(given);
        before.taken(to_call(before.powered, given.acceptable()), self)
    }

    // Each part after a frame.
    fn after(mut self, action: Action) -> Module
        ensures { result ≡ module_after self action }
    {
        self.job = self.job.after(action);
        self.command = command_after(self.command, action);
        self.bus = self.bus.after(action);
        self.alarms = self.alarms.after(action);
        self.monitor = self.monitor.after(action);
        let store = self.store;
        let mut copy = self.copy;
        self.differing = self.differing.after(&store, &copy, action);
        write_copy(&mut copy, action);
        self.copy = copy;
        self
    }

    // A frame on the bus: what it asks is decided, then each part reacts.
    #[tactic(auto, unfolding(crate::specs::Frame::frame))]
    pub fn frame(mut self, word: u32) -> Outcome<Answer<FrameAnswer>>
        ensures { result ≡ frame self word }
    {
        let job = self.job;
        let busy = job.busy();
        let action = decide(self.powered, self.port, self.bus.address, busy, word);
        let copy = self.copy;
        let thresholds = self.thresholds;
        let byte = byte_read(action, &copy, &thresholds);
        let value = value_read(action, byte, job, self.command, self.alarms, self.monitor);
        let answer = to_frame(action, value);
        self = self.after(action);
        Outcome { next: self, answer }
    }
}
