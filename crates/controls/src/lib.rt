// The alarm controls: which alarms are enabled.
#![tactic(auto)]

ghost use Rattle.std.specs.Prelude.{◌≡◌};
ghost use Rattle.controls.specs.Controls.{control_written, control_at};

// 9000 RX_ALARM, 9001 TX_ALARM, 9002 LASI, 9006 TX_FLAG, 9007 RX_FLAG control.
#[repr(C)]
#[derive(Clone, Copy)]
pub struct Controls {
    pub rxalarm: u16,
    pub txalarm: u16,
    pub lasi: u16,
    pub txflag: u16,
    pub rxflag: u16,
}

impl Controls {
    pub const ZERO: Controls = Controls {
        rxalarm: 0,
        txalarm: 0,
        lasi: 0,
        txflag: 0,
        rxflag: 0,
    };

    // Control i takes a word under its mask.
    pub fn written(mut self, i: u8, word: u16) -> Controls
        ensures { result ≡ control_written self i word }
    {
        match i {
            0 => {
                self.rxalarm = word & 0x003b;
            }
            1 => {
                self.txalarm = word & 0x03db;
            }
            2 => {
                self.lasi = word & 0x0007;
            }
            3 => {
                self.txflag = word & 0x00cf;
            }
            4 => {
                self.rxflag = word & 0x00c0;
            }
            _ => {}
        }
        self
    }

    pub fn value(self, i: u8) -> u16
        ensures { result ≡ control_at self i }
    {
        match i {
            0 => self.rxalarm,
            1 => self.txalarm,
            2 => self.lasi,
            3 => self.txflag,
            4 => self.rxflag,
            _ => 0,
        }
    }
}
