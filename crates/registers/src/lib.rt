// The register map of device 1.
#![tactic(auto)]

ghost use Rattle.std.specs.Prelude.{◌≡◌};
ghost use Rattle.registers.specs.Map.{register_at};

// What stands at an address.
#[derive(Clone, Copy)]
pub enum Register {
    // 0000: PMA/PMD control, whose bit 15 resets.
    PmaControl,
    // 8000: NVR control and status.
    NvrControl,
    // 8007 to 807D and 80AE to 8106: the copy's byte at an offset.
    Copy(u8),
    // 807E to 80AD: the copy's customer byte at an offset.
    Customer(u8),
    // 9000 RX_ALARM, 9001 TX_ALARM, 9002 LASI, 9006 TX_FLAG, 9007 RX_FLAG: control 0 to 4.
    Control(u8),
    // 9003 RX_ALARM, 9004 TX_ALARM, 9005 LASI: status 0 to 2.
    Status(u8),
    // A000 to A027: threshold byte 0 to 39.
    Threshold(u8),
    // A060 temperature, A064 bias, A066 transmit power, A068 receive power of the last sample: quantity 0 to 3, and
    // whether it is the low byte, at the next address.
    Sample(u8, bool),
    // A070, A071 alarm flags, A074, A075 warning flags: 0 to 3.
    Flags(u8),
    // Every other address.
    Unlisted,
}

impl Register {
    #[tactic(auto, unfolding(crate::specs::Map::register_at, crate::specs::Map::rows))]
    pub fn at(address: u16) -> Register
        ensures { result ≡ register_at address }
    {
        match address {
            0x0000 => Register::PmaControl,
            0x8000 => Register::NvrControl,
            0x8007..=0x807d => Register::Copy((address - 0x8007) as u8),
            0x807e..=0x80ad => Register::Customer((address - 0x8007) as u8),
            0x80ae..=0x8106 => Register::Copy((address - 0x8007) as u8),
            0x9000..=0x9002 => Register::Control((address - 0x9000) as u8),
            0x9003..=0x9005 => Register::Status((address - 0x9003) as u8),
            0x9006..=0x9007 => Register::Control((address - 0x9003) as u8),
            0xa000..=0xa027 => Register::Threshold((address - 0xa000) as u8),
            0xa060..=0xa061 => Register::Sample(0, address % 2 == 1),
            0xa064..=0xa069 => Register::Sample(((address - 0xa062) / 2) as u8, address % 2 == 1),
            0xa070..=0xa071 => Register::Flags((address - 0xa070) as u8),
            0xa074..=0xa075 => Register::Flags((address - 0xa072) as u8),
            _ => Register::Unlisted,
        }
    }
}
