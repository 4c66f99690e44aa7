//! The bytes of a frame: zeros, or the number of the next free frame.

ghost use Rattle.std.specs.Prelude.{◌≡◌};
ghost use Rattle.cxl_media.specs.Chain.{next_of};
ghost use Rattle.cxl_media.specs.Pool.{zeros};

/// The number that a free frame's first four bytes name.
#[tactic(auto, unfolding(crate::specs::Chain::next_of))]
pub fn next(bytes: &[u8; 256]) -> u32
    ensures { result ≡ next_of bytes.now }
{
    u32::from_le_bytes([bytes[0], bytes[1], bytes[2], bytes[3]])
}

/// Lets a frame's first four bytes name the next free frame.
#[tactic(auto, unfolding(crate::specs::Chain::next_of))]
pub fn link(bytes: &mut [u8; 256], next: u32)
    ensures { next_of bytes.new ≡ next }
{
    let [a, b, c, d] = next.to_le_bytes();
    bytes[0] = a;
    bytes[1] = b;
    bytes[2] = c;
    bytes[3] = d;
}

/// The bytes of a new frame.
#[tactic(auto, unfolding(crate::specs::Pool::zeros))]
pub fn zeroed() -> [u8; 256]
    ensures { result ≡ zeros }
{
    [0; 256]
}

/// Zeroes a frame.
pub fn zero(bytes: &mut [u8; 256])
    ensures { bytes.new ≡ zeros }
{
    *bytes = zeroed();
}
