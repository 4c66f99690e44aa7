//! The eight words of a decoder, both ways.

ghost use Rattle.std.specs.Prelude.{◌≡◌, ◌<◌, ◌+◌, ◌*◌, ◌%◌, ◌^◌, Bool};
ghost use Rattle.cxl_enc.specs.Limits.{unit};
ghost use Rattle.cxl_regs.specs.declared.decoder.Decoder.{Decoder};
ghost use Rattle.cxl_regs.specs.Registers.{IsDecoder};
ghost use Rattle.cxl_regs.specs.Words.{words_of, control_of, low_half, high_half, top_bits, decoder_of};

use crate::decoder::Decoder;
use cxl_enc::{
    CONTROL_COMMIT, CONTROL_COMMITTED, CONTROL_ERROR, CONTROL_HOST_ONLY, CONTROL_LOCK, has_bit,
};

/// The eight words of a decoder, from base low on. (CXL HDM decoder registers.)
pub fn words_of(d: &Decoder) -> [u32; 8]
    requires base { d.now.base % unit ≡ 0 }
    requires size { d.now.size % unit ≡ 0 }
    requires ways { d.now.ways < 16 }
    requires gran { d.now.gran < 16 }
    ensures { result ≡ words_of d.now }
{
    [
        low_half(d.base),
        high_half(d.base),
        low_half(d.size),
        high_half(d.size),
        control_of(d),
        low_half(d.tail),
        high_half(d.tail),
        0,
    ]
}

/// The decoder that eight words stand for, from base low on, in a port's or an endpoint's block. Bits
/// that do not count are dropped. (CXL HDM decoder registers.)
#[tactic(auto, unfolding(crate::specs::Words::decoder_of))]
pub fn decoder_of(words: &[u32; 8], endpoint: bool) -> Decoder
    ensures value { result ≡ decoder_of words.now endpoint }
    ensures decoder { IsDecoder endpoint result }
{
    let control = words[4];
    Decoder {
        base: joined(top_bits(words[0]), words[1]),
        size: joined(top_bits(words[2]), words[3]),
        ways: (control / 16 % 16) as u8,
        gran: (control % 16) as u8,
        lock: has_bit(control, CONTROL_LOCK),
        commit: has_bit(control, CONTROL_COMMIT),
        committed: has_bit(control, CONTROL_COMMITTED),
        error: has_bit(control, CONTROL_ERROR),
        host_only: has_bit(control, CONTROL_HOST_ONLY),
        tail: joined(
            if endpoint {
                top_bits(words[5])
            } else {
                words[5]
            },
            words[6],
        ),
    }
}

/// A law: the words of a decoder stand for that decoder.
pub fn words_stand_for_decoder()
    ensures { (endpoint : Bool) (d : Decoder) → IsDecoder endpoint d → decoder_of (words_of d) endpoint ≡ d }
{}

fn control_of(d: &Decoder) -> u32
    requires ways { d.now.ways < 16 }
    requires gran { d.now.gran < 16 }
    ensures { result ≡ control_of d.now }
{
    u32::from(d.gran)
        + 16 * u32::from(d.ways)
        + (u32::from(d.lock) << CONTROL_LOCK)
        + (u32::from(d.commit) << CONTROL_COMMIT)
        + (u32::from(d.committed) << CONTROL_COMMITTED)
        + (u32::from(d.error) << CONTROL_ERROR)
        + (u32::from(d.host_only) << CONTROL_HOST_ONLY)
}

pub fn low_half(n: u64) -> u32
    ensures { result ≡ low_half n }
{
    (n & 0xffff_ffff) as u32
}

pub fn high_half(n: u64) -> u32
    ensures { result ≡ high_half n }
{
    (n >> 32) as u32
}

pub fn joined(low: u32, high: u32) -> u64
    ensures { result ≡ high * 2 ^ 32 + low }
{
    (u64::from(high) << 32) + u64::from(low)
}

pub fn top_bits(word: u32) -> u32
    ensures { result ≡ top_bits word }
{
    word & 0xf000_0000
}
