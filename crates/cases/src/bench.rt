// The modules that a sheet makes.
use crate::print::{Given, show};
use crate::sheet::{Step, Word, decimal};
use calls::CallAnswer;
use creation::make;
use std::array;
use xenpak::Module;

// High alarm, low alarm, high warning, low warning: temperature 4600, F600, 4100, FB00; bias 9C40, 0FA0, 8CA0, 1388;
// transmit power F000, 0100, E000, 0200; receive power FFFE, 0001, 9000, 0010. A008 to A00F hold A8 to AF. One byte more.
const THRESHOLDS: [u8; 41] =
    *b"\x46\x00\xf6\x00\x41\x00\xfb\x00\xa8\xa9\xaa\xab\xac\xad\xae\xaf\x9c\x40\x0f\xa0\x8c\xa0\x13\x88\xf0\x00\x01\x00\xe0\x00\x02\x00\xff\xfe\x00\x01\x90\x00\x00\x10\x00";

// What a module is made of: how many bytes of an image, which checksum it has, how many bytes of the thresholds, and a code
// at one of their bytes.
#[derive(Clone, Copy)]
pub struct Parts {
    image: u32,
    checksum: u8,
    thresholds: u32,
    at: u32,
    code: u16,
}

impl Parts {
    pub const RIGHT: Parts = Parts {
        image: 256,
        checksum: 0xf7,
        thresholds: 40,
        at: 0,
        code: 0x4600,
    };

    // After a step.
    pub fn after(mut self, step: Step) -> Parts {
        let [first, second, third] = step.numbers;
        match step.word {
            Word::Image => {
                self.image = decimal(first);
                self.checksum = (second % 256) as u8;
            }
            Word::Codes => {
                self.thresholds = decimal(first);
                self.at = decimal(second);
                self.code = (third % 0x1_0000) as u16;
            }
            _ => {}
        }
        self
    }

    // Each byte is its offset, but the checksum at 118; F7 is right. One byte more.
    fn image(self) -> [u8; 257] {
        let mut bytes = array::from_fn(|offset| (offset % 256) as u8);
        bytes[118] = self.checksum;
        bytes
    }

    // The thresholds above, with the code at its byte.
    fn thresholds(self) -> [u8; 41] {
        let mut bytes = THRESHOLDS;
        let at = (self.at % 40) as usize;
        let [high, low] = self.code.to_be_bytes();
        bytes[at] = high;
        bytes[at + 1] = low;
        bytes
    }

    // The module made of these.
    pub fn made(self, rt: &impl Print, port: u8, asks: bool) -> Module {
        let image = self.image();
        let thresholds = self.thresholds();
        let image_end = (self.image % 258) as usize;
        let thresholds_end = (self.thresholds % 42) as usize;
        let outcome = make(port, &image[0..image_end], &thresholds[0..thresholds_end]);
        if asks {
            show(rt, Given::from(CallAnswer::Plain(outcome.answer)));
        }
        outcome.next
    }
}

// Port 5, powered off.
pub fn fresh(rt: &impl Print) -> Module {
    Parts::RIGHT.made(rt, 5, false)
}
