//! Numbers by their remainders modulo a power of two and modulo three.

ghost use Rattle.std.specs.Prelude.{◌≡◌, ℕ, ◌*◌, ◌%◌, ◌^◌, ◌<◌, ◌≤◌};

/// The one number below `3 * 2^k` with the remainders `bits` modulo `2^k` and `third` modulo 3, as a
/// place among the ways 3, 6 and 12 is made of low bits and a third. (This project's rule.)
pub fn join_thirds(bits: u32, k: u8, third: u8) -> u32
    requires few { k ≤ 4 }
    requires bits_below { bits < 2 ^ k }
    requires third_below { third < 3 }
    ensures below { result < 3 * 2 ^ k }
    ensures low { result % 2 ^ k ≡ bits }
    ensures thirds { result % 3 ≡ third }
    ensures only { (x : ℕ) → x < 3 * 2 ^ k → x % 2 ^ k ≡ bits → x % 3 ≡ third → x ≡ result }
{
    let power: u32 = 1 << k;
    // Modulo 3, `-bits` is `2 * bits` and each power of two is its own inverse.
    let turns = (u32::from(third) + 2 * bits) * power % 3;
    bits + turns * power
}
