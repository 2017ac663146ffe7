// The 32-bit frame of IEEE 802.3 Clause 45, and what it asks of the module at a port.
#![tactic(auto)]

ghost use Rattle.std.specs.Prelude.{◌≡◌};
ghost use Rattle.mdio.specs.Frame.{frame_of, reaches, turned, asked, request_of};

// Bits 31:30, 29:28, 27:23, 22:18, 17:16 and 15:0.
#[derive(Clone, Copy)]
struct Frame {
    start: u8,
    operation: u8,
    port: u8,
    device: u8,
    turnaround: u8,
    payload: u16,
}

// What a frame asks of a module.
#[derive(Clone, Copy)]
pub enum Request {
    // Not for this module.
    Silent,
    SetAddress(u16),
    Write(u16),
    Read,
    // Read, then add one to the address register unless it is FFFF.
    ReadIncrement,
}

impl From<u32> for Frame {
    fn from(word: u32) -> Frame
        ensures { result ≡ frame_of word }
    {
        Frame {
            start: (word / 0x4000_0000) as u8,
            operation: (word / 0x1000_0000 % 4) as u8,
            port: (word / 0x80_0000 % 32) as u8,
            device: (word / 0x4_0000 % 32) as u8,
            turnaround: (word / 0x1_0000 % 4) as u8,
            payload: (word % 0x1_0000) as u16,
        }
    }
}

impl Frame {
    // The frame is for the module at this port.
    fn reaches(self, port: u8) -> bool
        ensures { result ≡ reaches port self }
    {
        (self.start == 0) & (self.port == port) & (self.device == 1)
    }
}

// An address or write frame is silent unless its turnaround is 10.
fn turned(turnaround: u8, request: Request) -> Request
    ensures { result ≡ turned turnaround request }
{
    if turnaround == 2 {
        request
    } else {
        Request::Silent
    }
}

// What a frame that reaches the module asks.
#[tactic(auto, unfolding(crate::specs::Frame::asked))]
fn asked(operation: u8, turnaround: u8, payload: u16) -> Request
    ensures { result ≡ asked operation turnaround payload }
{
    match operation {
        0 => turned(turnaround, Request::SetAddress(payload)),
        1 => turned(turnaround, Request::Write(payload)),
        2 => Request::ReadIncrement,
        _ => Request::Read,
    }
}

impl Request {
    #[tactic(auto, unfolding(crate::specs::Frame::request_of))]
    pub fn of(word: u32, port: u8) -> Request
        ensures { result ≡ request_of word port }
    {
        let frame = Frame::from(word);
        if frame.reaches(port) {
            asked(frame.operation, frame.turnaround, frame.payload)
        } else {
            Request::Silent
        }
    }
}
