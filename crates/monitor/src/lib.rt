// Digital optical monitoring (DOM): the last sample, and the low byte that a read of a high byte holds.
#![tactic(auto)]

ghost use Rattle.std.specs.Prelude.{◌≡◌};
ghost use Rattle.monitor.specs.Monitor.{bits_of, code_in, holds, byte_of, value_of, holding, forgetting, after_sample_read, after_read, monitor_after, sampled_monitor};

use action::Action;
use dom::Sample;
use registers::Register;

#[repr(C)]
#[derive(Clone, Copy)]
pub struct Monitor {
    pub sample: Sample,
    // Whether a low byte is held, of which quantity, and the byte.
    pub held: bool,
    pub quantity: u8,
    pub byte: u8,
}

// The 16 bits of a signed code.
fn bits_of(code: i16) -> u16
    ensures { result ≡ bits_of code }
{
    code.cast_unsigned()
}

// The high or the low byte of a code; a byte that is held stands for the low one.
fn byte_of(code: u16, low: bool, held: bool, byte: u8) -> u16
    ensures { result ≡ byte_of code low held byte }
{
    if low {
        if held { byte as u16 } else { code % 256 }
    } else {
        code / 256
    }
}

impl Monitor {
    // No sample yet, and no byte held.
    pub const NONE: Monitor = Monitor {
        sample: Sample {
            temperature: 0,
            bias: 0,
            transmit: 0,
            receive: 0,
        },
        held: false,
        quantity: 0,
        byte: 0,
    };

    // The sample's code of a quantity: temperature, bias, transmit power, receive power.
    fn code(self, quantity: u8) -> u16
        ensures { result ≡ code_in self.sample quantity }
    {
        match quantity {
            0 => bits_of(self.sample.temperature),
            1 => self.sample.bias,
            2 => self.sample.transmit,
            3 => self.sample.receive,
            _ => 0,
        }
    }

    // The byte held is this quantity's.
    fn holds(self, quantity: u8) -> bool
        ensures { result ≡ holds self quantity }
    {
        self.held & (self.quantity == quantity)
    }

    // What the register of a quantity's high or low byte reads.
    pub fn value(self, quantity: u8, low: bool) -> u16
        ensures { result ≡ value_of self quantity low }
    {
        let code = self.code(quantity);
        let held = self.holds(quantity);
        byte_of(code, low, held, self.byte)
    }

    // A read of a quantity's high byte holds its low byte.
    fn holding(mut self, quantity: u8) -> Monitor
        ensures { result ≡ holding self quantity }
    {
        let code = self.code(quantity);
        self.held = true;
        self.quantity = quantity;
        self.byte = (code % 256) as u8;
        self
    }

    // A read of a quantity's low byte forgets the byte held, if it is this quantity's.
    fn forgetting(mut self, quantity: u8) -> Monitor
        ensures { result ≡ forgetting self quantity }
    {
        self.held = self.held & (self.quantity != quantity);
        self
    }

    fn after_sample_read(self, quantity: u8, low: bool) -> Monitor
        ensures { result ≡ after_sample_read self quantity low }
    {
        if low {
            self.forgetting(quantity)
        } else {
            self.holding(quantity)
        }
    }

    // After a read of a register.
    fn after_read(self, register: Register) -> Monitor
        ensures { result ≡ after_read self register }
    {
        match register {
            Register::Sample(quantity, low) => self.after_sample_read(quantity, low),
            _ => self,
        }
    }

    // After a frame.
    pub fn after(self, action: Action) -> Monitor
        ensures { result ≡ monitor_after self action }
    {
        match action {
            Action::Reset => Monitor::NONE,
            Action::Read(register, _) => self.after_read(register),
            _ => self,
        }
    }

    // After a sample.
    pub fn sampled(mut self, sample: Sample) -> Monitor
        ensures { result ≡ sampled_monitor sample self }
    {
        self.sample = sample;
        self
    }
}
