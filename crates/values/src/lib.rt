// What a frame reads. Bytes are read apart from words, so that no array stands beside the words.
#![tactic(auto)]

ghost use Rattle.std.specs.Prelude.{◌≡◌};
ghost use Rattle.values.specs.Values.{register_of, register_byte, register_value};

use action::Action;
use alarms::Alarms;
use jobs::Job;
use lasi::{flags_at, status_at};
use monitor::Monitor;
use registers::Register;
use store::byte_at;

// The byte of copy or thresholds at a register, 0 at any other.
fn register_byte(register: Register, copy: &[u8; 256], thresholds: &[u8; 40]) -> u8
    ensures { result ≡ register_byte register copy.now thresholds.now }
{
    match register {
        Register::Copy(offset) => byte_at(copy, offset),
        Register::Customer(offset) => byte_at(copy, offset),
        Register::Threshold(k) => byte_at(thresholds, k),
        _ => 0,
    }
}

// The byte of copy or thresholds that a frame reads, 0 where it reads none.
pub fn byte_read(action: Action, copy: &[u8; 256], thresholds: &[u8; 40]) -> u8
    ensures { result ≡ register_byte (register_of action) copy.now thresholds.now }
{
    match action {
        Action::Read(register, _) => register_byte(register, copy, thresholds),
        _ => 0,
    }
}

// What a register reads, given the byte of copy or thresholds at it.
fn register_value(
    register: Register,
    byte: u8,
    job: Job,
    command: u16,
    alarms: Alarms,
    monitor: Monitor,
) -> u16
    ensures { result ≡ register_value register byte job command alarms monitor }
{
    match register {
        Register::PmaControl => job.pma_word(),
        Register::NvrControl => job.word(command),
        Register::Copy(_) => byte as u16,
        Register::Customer(_) => byte as u16,
        Register::Control(i) => {
            let controls = alarms.controls;
            controls.value(i)
        }
        Register::Status(i) => status_at(alarms, i),
        Register::Threshold(_) => byte as u16,
        Register::Sample(quantity, low) => monitor.value(quantity, low),
        Register::Flags(i) => flags_at(alarms, i),
        Register::Unlisted => 0,
    }
}

// What a frame reads, 0 where it reads nothing.
pub fn value_read(
    action: Action,
    byte: u8,
    job: Job,
    command: u16,
    alarms: Alarms,
    monitor: Monitor,
) -> u16
    ensures { result ≡ register_value (register_of action) byte job command alarms monitor }
{
    match action {
        Action::Read(register, _) => register_value(register, byte, job, command, alarms, monitor),
        _ => 0,
    }
}
