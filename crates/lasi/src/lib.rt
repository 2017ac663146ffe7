// What the alarm registers read, and the link status alarm interrupt (LASI), the alarm line.
#![tactic(auto)]

ghost use Rattle.std.specs.Prelude.{◌≡◌, false, [], ◌∷◌};
ghost use Rattle.std.specs.Int.Bits.{bit_or};
ghost use Rattle.words.specs.Words.{of_bits, share};
ghost use Rattle.latch.specs.Latch.{latched};
ghost use Rattle.lasi.specs.Lasi.{rx_alarm, tx_alarm, lasi_status, alarm_line, status_at, flags_at};

use alarms::Alarms;
use latch::Latch;
use words::{of_bits, share};

// The word of bits 0, 1 and 2.
fn low_bits(b0: bool, b1: bool, b2: bool) -> u16
    ensures { result ≡ of_bits (b0 ∷ b1 ∷ b2 ∷ []) }
{
    of_bits([b0, b1, b2, false, false, false, false, false])
}

// Faults that stand, and in bit 1 whether the flags that stand and their control share a bit.
fn alarm_status(faults: Latch, flags: Latch, control: u16) -> u16
    ensures { result ≡ bit_or (latched faults) (of_bits (false ∷ share (latched flags) control ∷ false ∷ [])) }
{
    let flagged = share(flags.value(), control);
    faults.value() | low_bits(false, flagged, false)
}

// 9003, RX_ALARM status: bit 1 is whether A071 and 9007 share a bit.
fn rx_alarm(a: Alarms) -> u16
    ensures { result ≡ rx_alarm a }
{
    alarm_status(a.rxfaults, a.rxalarm, a.controls.rxflag)
}

// 9004, TX_ALARM status: bit 1 is whether A070 and 9006 share a bit.
fn tx_alarm(a: Alarms) -> u16
    ensures { result ≡ tx_alarm a }
{
    alarm_status(a.txfaults, a.txalarm, a.controls.txflag)
}

// 9005, LASI status: bit 2 is whether 9003 and 9000 share a bit, bit 1 whether 9004 and 9001 do, bit 0 the link alarm.
fn lasi_status(a: Alarms) -> u16
    ensures { result ≡ lasi_status a }
{
    let receive = rx_alarm(a);
    let transmit = tx_alarm(a);
    let rx = share(receive, a.controls.rxalarm);
    let tx = share(transmit, a.controls.txalarm);
    low_bits(a.changed, tx, rx)
}

// The alarm line: powered, and 9005 and 9002 share a bit.
pub fn line(a: Alarms, powered: bool) -> bool
    ensures { result ≡ alarm_line powered a }
{
    let status = lasi_status(a);
    let enabled = share(status, a.controls.lasi);
    powered & enabled
}

// 9003, 9004, 9005.
pub fn status_at(a: Alarms, i: u8) -> u16
    ensures { result ≡ status_at a i }
{
    match i {
        0 => rx_alarm(a),
        1 => tx_alarm(a),
        2 => lasi_status(a),
        _ => 0,
    }
}

// A070, A071, A074, A075. All four are read before one is chosen: a choice among addresses would hold the alarms in memory.
pub fn flags_at(a: Alarms, i: u8) -> u16
    ensures { result ≡ flags_at a i }
{
    let txalarm = a.txalarm.value();
    let rxalarm = a.rxalarm.value();
    let txwarning = a.txwarning.value();
    let rxwarning = a.rxwarning.value();
    match i {
        0 => txalarm,
        1 => rxalarm,
        2 => txwarning,
        3 => rxwarning,
        _ => 0,
    }
}
