//! The parity and the low bits of a word.

ghost use Rattle.std.specs.Prelude.{◌≡◌, ◌%◌, ◌^◌, ◌<◌, ◌↔◌, IsTrue, count_ones};

/// Whether the number of set bits is odd, as an XOR map asks of the address bits that it takes. (ACPI
/// CEDT, CXIMS.)
pub fn parity(word: u64) -> bool
    ensures { IsTrue result ↔ (count_ones word % 2 ≡ 1) }
{
    word.count_ones() % 2 == 1
}

/// The k lowest bits of a word, the others 0.
pub fn low_bits(word: u64, k: u8) -> u64
    requires { k < 64 }
    ensures { result ≡ word % 2 ^ k }
{
    word & ((1 << k) - 1)
}
