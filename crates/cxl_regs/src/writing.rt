//! A decoder with one of its words written.

ghost use Rattle.std.specs.Prelude.{◌≡◌, Bool};
ghost use Rattle.cxl_regs.specs.Registers.{IsDecoder};
ghost use Rattle.cxl_regs.specs.Writes.{with_low, with_high, with_word, with_control};

use crate::decoder::Decoder;
use crate::offsets::{BASE_HIGH, BASE_LOW, SIZE_HIGH, SIZE_LOW, TAIL_LOW};
use crate::words::{high_half, joined, low_half, top_bits};
use cxl_enc::{CONTROL_HOST_ONLY, CONTROL_LOCK, has_bit};

/// Gives the decoder's word `place`, but not its control, the bits of `value` that count. No other register is touched.
pub fn write_word(d: &mut Decoder, endpoint: bool, place: u32, value: u32)
    ensures { d.new ≡ with_word endpoint d.old place value }
{
    match place {
        BASE_LOW => d.base = with_low(d.base, top_bits(value)),
        BASE_HIGH => d.base = with_high(d.base, value),
        SIZE_LOW => d.size = with_low(d.size, top_bits(value)),
        SIZE_HIGH => d.size = with_high(d.size, value),
        TAIL_LOW => {
            d.tail = with_low(d.tail, if endpoint { top_bits(value) } else { value });
        }
        _ => d.tail = with_high(d.tail, value),
    }
}

fn with_low(n: u64, word: u32) -> u64
    ensures { result ≡ with_low n word }
{
    joined(word, high_half(n))
}

fn with_high(n: u64, word: u32) -> u64
    ensures { result ≡ with_high n word }
{
    joined(low_half(n), word)
}

/// The decoder with the granularity, ways, lock and host-only of a control word.
pub fn with_control(d: Decoder, value: u32) -> Decoder
    ensures value { result ≡ with_control d value }
    ensures decoder { (endpoint : Bool) → IsDecoder endpoint d → IsDecoder endpoint result }
{
    Decoder {
        gran: (value % 16) as u8,
        ways: (value / 16 % 16) as u8,
        lock: has_bit(value, CONTROL_LOCK),
        host_only: has_bit(value, CONTROL_HOST_ONLY),
        ..d
    }
}
