ghost use Rattle.std.specs.Prelude.{◌≡◌};
ghost use Rattle.frames.specs.Frames.{big2, big3};

// Two bytes as a number, the most significant first.
pub fn two(high: u8, low: u8) -> u16
    ensures { result ≡ big2 high low }
{
    u16::from_be_bytes([high, low])
}

// Three bytes as a number, the most significant first.
pub fn three(high: u8, middle: u8, low: u8) -> u32
    ensures { result ≡ big3 high middle low }
{
    u32::from_be_bytes([0, high, middle, low])
}
