//! Laws of interleave arithmetic, each the contract of a function that does nothing.

ghost use Rattle.std.specs.Prelude.{◌≡◌, ℕ, ◌*◌, ◌/◌, ◌%◌, ◌<◌};
ghost use Rattle.cxl_num.specs.Laws.{RawBitsAreReplaced, ParitiesTellRawBits};

/// A law of remainders: where `a * b` divides n, the digit of c at a to the base b is that of `c mod n`.
#[tactic(auto, using(crate::proofs::ThirdsAndPowers::digit_of_remainder))]
pub fn remainders_keep_digits()
    ensures { (c n a b q : ℕ) → 0 < a → 0 < b → n ≡ q * (a * b) → 0 < n
        → ((c % n) / a) % b ≡ (c / a) % b }
{}

/// A law of raw bits: what becomes of an address whose bits from the granularity on are replaced.
#[tactic(auto, using(crate::proofs::RawBits::raw_bits_replaced))]
pub fn raw_bits_are_replaced()
    ensures { RawBitsAreReplaced }
{}

/// A law of XOR maps: with the rest of an address given, its raw bits and its parities tell each other.
#[tactic(auto, using(crate::proofs::ParityTurns::parities_told))]
pub fn parities_tell_raw_bits()
    ensures { ParitiesTellRawBits }
{}
