// Alarm and flag latches, the link and the controls: what frames, starts, lines and samples do to them.
#![tactic(auto)]

ghost use Rattle.std.specs.Prelude.{◌≡◌};
ghost use Rattle.alarms.specs.Alarms.{status_cleared, flags_cleared, after_read, restarted, controlled, alarms_after, after_lines, after_sample};

use action::Action;
use controls::Controls;
use flags::Flags;
use latch::Latch;
use registers::Register;

#[repr(C)]
#[derive(Clone, Copy)]
pub struct Alarms {
    pub controls: Controls,
    // Receive and transmit faults.
    pub rxfaults: Latch,
    pub txfaults: Latch,
    // A070, A071, A074, A075.
    pub txalarm: Latch,
    pub rxalarm: Latch,
    pub txwarning: Latch,
    pub rxwarning: Latch,
    // The link is up; and the link alarm, bit 0 of 9005: the link changed.
    pub link: bool,
    pub changed: bool,
}

// What a lines call gives: receive and transmit faults, and the three link levels, signal detect, block lock and lane
// alignment.
#[repr(C)]
#[derive(Clone, Copy)]
pub struct Lines {
    pub receive: u16,
    pub transmit: u16,
    pub signal: bool,
    pub block: bool,
    pub lanes: bool,
}

impl Alarms {
    // What power-on leaves: nothing enabled, nothing seen, the link down.
    pub const NONE: Alarms = Alarms {
        controls: Controls::ZERO,
        rxfaults: Latch::NONE,
        txfaults: Latch::NONE,
        txalarm: Latch::NONE,
        rxalarm: Latch::NONE,
        txwarning: Latch::NONE,
        rxwarning: Latch::NONE,
        link: false,
        changed: false,
    };

    // A read of 9003 or 9004 clears its faults, one of 9005 the link alarm.
    fn status_cleared(mut self, i: u8) -> Alarms
        ensures { result ≡ status_cleared self i }
    {
        match i {
            0 => {
                self.rxfaults = self.rxfaults.cleared();
            }
            1 => {
                self.txfaults = self.txfaults.cleared();
            }
            2 => {
                self.changed = false;
            }
            _ => {}
        }
        self
    }

    // A read of A070, A071, A074 or A075 clears its flags.
    fn flags_cleared(mut self, i: u8) -> Alarms
        ensures { result ≡ flags_cleared self i }
    {
        match i {
            0 => {
                self.txalarm = self.txalarm.cleared();
            }
            1 => {
                self.rxalarm = self.rxalarm.cleared();
            }
            2 => {
                self.txwarning = self.txwarning.cleared();
            }
            3 => {
                self.rxwarning = self.rxwarning.cleared();
            }
            _ => {}
        }
        self
    }

    // After a read of a register.
    fn after_read(self, register: Register) -> Alarms
        ensures { result ≡ after_read self register }
    {
        match register {
            Register::Status(i) => self.status_cleared(i),
            Register::Flags(i) => self.flags_cleared(i),
            _ => self,
        }
    }

    // A reset keeps the lines: the latest faults and the link.
    pub fn restarted(self) -> Alarms
        ensures { result ≡ restarted self }
    {
        Alarms {
            rxfaults: self.rxfaults.cleared(),
            txfaults: self.txfaults.cleared(),
            link: self.link,
            ..Alarms::NONE
        }
    }

    // A control takes a word.
    fn controlled(mut self, i: u8, word: u16) -> Alarms
        ensures { result ≡ controlled self i word }
    {
        self.controls = self.controls.written(i, word);
        self
    }

    // After a frame.
    pub fn after(self, action: Action) -> Alarms
        ensures { result ≡ alarms_after self action }
    {
        match action {
            Action::Reset => self.restarted(),
            Action::Control(i, word) => self.controlled(i, word),
            Action::Read(register, _) => self.after_read(register),
            _ => self,
        }
    }

    // After a lines call: faults under their masks; the link is up when all three levels are.
    pub fn lines(mut self, lines: Lines) -> Alarms
        ensures { result ≡ after_lines self lines }
    {
        let up = lines.signal & lines.block & lines.lanes;
        self.rxfaults = self.rxfaults.fed(lines.receive & 0x0039);
        self.txfaults = self.txfaults.fed(lines.transmit & 0x03d9);
        self.changed = self.changed | (self.link != up);
        self.link = up;
        self
    }

    // After a sample with these flags.
    pub fn sampled(mut self, flags: Flags) -> Alarms
        ensures { result ≡ after_sample self flags }
    {
        self.txalarm = self.txalarm.fed(flags.txalarm);
        self.rxalarm = self.rxalarm.fed(flags.rxalarm);
        self.txwarning = self.txwarning.fed(flags.txwarning);
        self.rxwarning = self.rxwarning.fed(flags.rxwarning);
        self
    }
}
