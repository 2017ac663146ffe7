// The 256 bytes of an image: their regions, and the checksum of the basic region.
ghost use Rattle.std.specs.Prelude.{◌≡◌, ◌%◌, take};
ghost use Rattle.nvr.specs.Image.{region_of, is_customer, sum, checksum_right};

// The regions of an image, by offset.
#[derive(Clone, Copy)]
pub enum Region {
    Basic,
    Checksum,
    Customer,
    Vendor,
}

impl From<u8> for Region {
    // The region of an offset.
    fn from(offset: u8) -> Region
        ensures { result ≡ region_of offset }
    {
        match offset {
            0..=117 => Region::Basic,
            118 => Region::Checksum,
            119..=166 => Region::Customer,
            _ => Region::Vendor,
        }
    }
}

impl Region {
    pub fn is_customer(self) -> bool
        ensures { result ≡ is_customer self }
    {
        matches!(self, Region::Customer)
    }
}

// The low eight bits of the sum of the first `left` bytes, or of all where there are fewer.
pub fn checksum(bytes: &[u8], left: usize) -> u8
    ensures { result ≡ sum (take left bytes.now) % 256 }
{
    if left == 0 {
        return 0;
    }
    if bytes.is_empty() {
        return 0;
    }
    bytes[0].wrapping_add(checksum(&bytes[1..], left - 1))
}

// The basic region's checksum, offset 118, is right.
pub fn checksum_right(image: &[u8; 256]) -> bool
    ensures { result ≡ checksum_right image.now }
{
    checksum(image, 118) == image[118]
}
