//! The two kinds of memory, and what a capability word states of a decoder block.

ghost use Rattle.std.specs.Prelude.{◌≡◌, ◌+◌, ◌*◌, ◌<◌, IsTrue};
ghost use Rattle.cxl_enc.specs.Caps.{targets_of, has_bit, is_legal_cap, has_named_bits, has_own_bits, are_caps, bit_of, word_of};

use crate::bits::{CAP_HIGH, CAP_LOW, CAP_WAYS3, CAP_WAYS16};

/// The two kinds of device memory: volatile and persistent.
#[derive(Clone, Copy, PartialEq, Eq)]
pub enum MemKind {
    Ram,
    Pmem,
}

/// What a decoder block can do, as its capability word states it.
#[derive(Clone, Copy)]
pub struct Caps {
    /// How many decoders: 1, 2, 4, 6, 8 or 10.
    pub decoders: u8,
    /// How many targets a port's decoder may list: 1, 2, 4 or 8, and 0 in an endpoint.
    pub targets: u8,
    /// Select on the address bits 11:8.
    pub low: bool,
    /// Select on the address bits 14:12.
    pub high: bool,
    /// The ways 3, 6 and 12.
    pub ways3: bool,
    /// The ways 16.
    pub ways16: bool,
}

/// How many targets a decoder of a block with this capability word may list: bits 7:4. (CXL HDM decoder capability.)
pub fn target_count(cap: u32) -> u8
    ensures value { result ≡ targets_of cap }
    ensures few { result < 16 }
{
    (cap / 16 % 16) as u8
}

/// Whether a bit of a word is set.
pub fn has_bit(word: u32, place: u8) -> bool
    requires { place < 32 }
    ensures { result ≡ has_bit word place }
{
    (word >> place) & 1 == 1
}

/// Whether a capability word is one that this project's devices may have. (CXL HDM decoder capability;
/// which bits may be set is this project's rule.)
pub fn legal_cap(cap: u32, endpoint: bool) -> bool
    ensures { result ≡ is_legal_cap cap endpoint }
{
    has_named_bits(cap) && has_own_bits(cap, endpoint)
}

fn has_named_bits(cap: u32) -> bool
    ensures { result ≡ has_named_bits cap }
{
    cap % 16 <= 5 && cap / 1_024 % 2 == 0 && cap < 2 << CAP_WAYS16
}

fn has_own_bits(cap: u32, endpoint: bool) -> bool
    ensures { result ≡ has_own_bits cap endpoint }
{
    let targets = target_count(cap);
    if endpoint {
        return targets == 0;
    }
    matches!(targets, 1 | 2 | 4 | 8) && cap < 1 << CAP_WAYS3
}

/// The capability word with these fields. (CXL HDM decoder capability.)
pub fn cap_word(caps: &Caps) -> u32
    requires { IsTrue (are_caps caps.now) }
    ensures { result ≡ word_of caps.now }
{
    // 1, 2, 4, 6, 8 and 10 decoders have the codes 0 to 5.
    let count = u32::from(caps.decoders / 2);
    let targets = 16 * u32::from(caps.targets);
    count + targets + flags(caps)
}

/// The bits of a capability word that each stand for something by itself.
fn flags(caps: &Caps) -> u32
    ensures value { result ≡ 256 * bit_of caps.now.low + 512 * bit_of caps.now.high
        + 2048 * bit_of caps.now.ways3 + 4096 * bit_of caps.now.ways16 }
    ensures few { result < 8192 }
{
    bit(caps.low, 1 << CAP_LOW)
        + bit(caps.high, 1 << CAP_HIGH)
        + bit(caps.ways3, 1 << CAP_WAYS3)
        + bit(caps.ways16, 1 << CAP_WAYS16)
}

fn bit(flag: bool, weight: u32) -> u32
    ensures { result ≡ weight * bit_of flag }
{
    if flag { weight } else { 0 }
}
