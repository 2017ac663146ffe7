// Register 8000, and the job that a command starts there: a load or a burn, one byte a tick.
#![tactic(auto)]

ghost use Rattle.std.specs.Prelude.{◌≡◌};
ghost use Rattle.jobs.specs.Job.{command_job, is_busy, status_of, word_of, pma_word, after_read, job_after, command_after};

use action::Action;
use nvr::command::{Command, kept_bits};
use registers::Register;

// Kinds of job: no job, a load, a burn, and the first load after power-on or reset.
pub const NONE: u8 = 0;

pub const LOAD: u8 = 1;

pub const BURN: u8 = 2;

pub const FIRST: u8 = 3;

// The last offset, and the customer bytes' first and last.
const LAST: u8 = 255;

const CUSTOMER: u8 = 119;

const CUSTOMER_LAST: u8 = 166;

// The word at 8000 without its status, from power-on or reset on.
pub const FIRST_COMMAND: u16 = 0x0003;

// Four bytes, so that a tick and a frame carry it in one register.
#[repr(C)]
#[derive(Clone, Copy)]
pub struct Job {
    // The offset due, and the job's last one.
    pub due: u8,
    pub last: u8,
    // The status that the latest job left, 1 done or 3 failed; 0, idle, once 8000 was read.
    pub ended: u8,
    pub kind: u8,
}

impl Job {
    // No job: a module that was never powered.
    pub const IDLE: Job = Job {
        due: 0,
        last: 0,
        ended: 0,
        kind: NONE,
    };

    // What power-on and reset start.
    pub const FIRST_LOAD: Job = Job {
        due: 0,
        last: LAST,
        ended: 0,
        kind: FIRST,
    };

    pub fn busy(self) -> bool
        ensures { result ≡ is_busy self }
    {
        self.kind != NONE
    }

    // Bits 3:2 of 8000: 0 idle, 1 done, 2 busy, 3 failed.
    fn status(self) -> u8
        ensures { result ≡ status_of self }
    {
        if self.kind == NONE { self.ended } else { 2 }
    }

    // The word at 8000 as it reads, by the bits that it keeps of the command.
    pub fn word(self, command: u16) -> u16
        ensures { result ≡ word_of self command }
    {
        command | 4 * (self.status() as u16)
    }

    // The word at 0000: 8000 is added while the first load runs.
    pub fn pma_word(self) -> u16
        ensures { result ≡ pma_word self }
    {
        match self.kind {
            FIRST => 0xa040,
            _ => 0x2040,
        }
    }

    // After a read of a register: reading 8000 turns done or failed into idle.
    fn after_read(mut self, register: Register) -> Job
        ensures { result ≡ after_read self register }
    {
        match register {
            Register::NvrControl => {
                self.ended = 0;
                self
            }
            _ => self,
        }
    }

    // After a frame.
    pub fn after(self, action: Action) -> Job
        ensures { result ≡ job_after self action }
    {
        match action {
            Action::Reset => Job::FIRST_LOAD,
            Action::Command(word) => Job::from(Command::from(word)),
            Action::Read(register, _) => self.after_read(register),
            _ => self,
        }
    }
}

impl From<Command> for Job {
    // The job of a command.
    fn from(command: Command) -> Job
        ensures { result ≡ command_job command }
    {
        match command {
            Command::LoadAll => Job {
                due: 0,
                last: LAST,
                ended: 0,
                kind: LOAD,
            },
            Command::LoadByte(offset) => Job {
                due: offset,
                last: offset,
                ended: 0,
                kind: LOAD,
            },
            Command::BurnCustomer => Job {
                due: CUSTOMER,
                last: CUSTOMER_LAST,
                ended: 0,
                kind: BURN,
            },
            Command::BurnByte(offset) => Job {
                due: offset,
                last: offset,
                ended: 0,
                kind: BURN,
            },
            Command::Failed => Job {
                due: 0,
                last: 0,
                ended: 3,
                kind: NONE,
            },
        }
    }
}

// What 8000 keeps of the command, after a frame.
pub fn command_after(command: u16, action: Action) -> u16
    ensures { result ≡ command_after command action }
{
    match action {
        Action::Reset => FIRST_COMMAND,
        Action::Command(word) => kept_bits(word),
        _ => command,
    }
}
