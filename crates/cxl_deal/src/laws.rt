//! Laws of dealing, each the contract of a function that does nothing.

ghost use Rattle.std.specs.Prelude.{◌≡◌, ℕ, ◌+◌, ◌-◌, ◌*◌, ◌/◌, ◌%◌, ◌^◌, ◌<◌, ◌≤◌};
ghost use Rattle.cxl_enc.specs.Limits.{unit};
ghost use Rattle.cxl_num.specs.Interleave.{chunk_size, factor_of, ways_by};
ghost use Rattle.cxl_deal.specs.Weaves.{WeaveFields, IsWeave, weave_ways, turns_end, dealt_chunk, dealt_low, dealt_slot, dealt_offset, position_from};

use cxl_num::{parities_tell_raw_bits, raw_bits_are_replaced, remainders_keep_digits};

/// A law of dealing: the lowest `root_bits` digits of a slot are the root's part, and those above count
/// the chunk's round of the root's places, modulo `t * 2^low_bits`.
pub fn slot_digits()
    ensures low { (w : WeaveFields) (h : ℕ) → dealt_slot w h % 2 ^ w.root_bits ≡ dealt_low w h }
    ensures upper { (w : WeaveFields) (h : ℕ) → dealt_slot w h / 2 ^ w.root_bits
        ≡ dealt_chunk w h / 2 ^ w.root_bits % ways_by w.third w.low_bits }
{
    parities_tell_raw_bits();
}

/// A law of dealing: slot and offset tell the address.
pub fn place_tells_address()
    ensures { (w : WeaveFields) (h i : ℕ) → IsWeave w → w.base ≤ h → w.base ≤ i
        → dealt_slot w h ≡ dealt_slot w i → dealt_offset w h ≡ dealt_offset w i → h ≡ i }
{
    raw_bits_are_replaced();
    parities_tell_raw_bits();
}

/// A law of dealing: the addresses of a region of n whole turns are those that are dealt to offsets
/// below n chunks, and each such offset of each slot is hit.
pub fn region_fills_slots()
    ensures slot { (w : WeaveFields) (h : ℕ) → dealt_slot w h < weave_ways w }
    ensures lands { (w : WeaveFields) (n h : ℕ) → w.base ≤ h → h < turns_end w n
        → dealt_offset w h < n * chunk_size w.gran }
    ensures within { (w : WeaveFields) (n h : ℕ) → w.base ≤ h
        → dealt_offset w h < n * chunk_size w.gran → h < turns_end w n }
    ensures hit { (w : WeaveFields) (n slot offset : ℕ) → IsWeave w → slot < weave_ways w
        → offset < n * chunk_size w.gran
        → (h : ℕ) × (w.base ≤ h) × (h < turns_end w n)
        × (dealt_slot w h ≡ slot) × (dealt_offset w h ≡ offset) }
{
    raw_bits_are_replaced();
    parities_tell_raw_bits();
}

/// A law of dealing: the addresses of one chunk have one slot and offsets that follow each other.
pub fn chunks_deal_whole()
    ensures slot { (w : WeaveFields) (h d : ℕ) → IsWeave w → w.base ≤ h
        → (h - w.base) % chunk_size w.gran + d < chunk_size w.gran
        → dealt_slot w (h + d) ≡ dealt_slot w h }
    ensures offset { (w : WeaveFields) (h d : ℕ) → IsWeave w → w.base ≤ h
        → (h - w.base) % chunk_size w.gran + d < chunk_size w.gran
        → dealt_offset w (h + d) ≡ dealt_offset w h + d }
{
    raw_bits_are_replaced();
    parities_tell_raw_bits();
}

/// A law of dealing: a slot tells an address's position in the window, where the weave has the window's
/// granularity, ways, arithmetic and maps for its root, and begins a multiple of 256 MiB (of three times
/// that, where three divides the ways) behind the window's `base`.
pub fn slots_keep_positions()
    ensures { (w : WeaveFields) (base h : ℕ) → IsWeave w → base ≤ w.base
        → (w.base - base) % (factor_of w.third * unit) ≡ 0 → w.base ≤ h
        → position_from base w h ≡ dealt_slot w h % 2 ^ w.root_bits
        + 2 ^ w.root_bits * (dealt_slot w h / 2 ^ w.root_bits % factor_of w.third) }
{
    parities_tell_raw_bits();
}

/// A law of dealing: where `q * p` divides `2^low_bits`, the digit of a slot at `2^root_bits * q` to the
/// base p is the entry to which a port of p ways sends the address, whose granularity is as many chunks.
pub fn slots_keep_entries()
    ensures { (w : WeaveFields) (h q p m : ℕ) → 2 ^ w.low_bits ≡ m * (q * p)
        → dealt_slot w h / (2 ^ w.root_bits * q) % p
        ≡ (h - w.base) / (chunk_size w.gran * 2 ^ w.root_bits * q) % p }
{
    parities_tell_raw_bits();
    remainders_keep_digits();
}
