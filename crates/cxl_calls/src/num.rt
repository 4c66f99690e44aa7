//! Numbers of interleaving.

use crate::common::{row_passes, rows};
use cxl_enc::Factors;
use cxl_num::{
    are_usable_maps, checked_end, factor_of, join_thirds, low_bits, parities,
    parities_tell_raw_bits, parity, raw_bits_are_replaced, remainders_keep_digits, ways_by,
    with_raw_bits,
};

#[test]
fn joins_thirds_and_keeps_low_bits(rt: HostRuntime) {
    let joined = [
        join_thirds(1, 1, 0),
        join_thirds(3, 2, 2),
        join_thirds(0, 0, 2),
    ];
    assert!(rt; joined == [3, 11, 2]);
    let kept = [
        low_bits(0x1234, 8),
        low_bits(0x1234, 0),
        low_bits(u64::MAX, 63),
    ];
    assert!(rt; kept == [0x34, 0, 0x7fff_ffff_ffff_ffff]);
}

/// A word, and whether the number of its set bits is odd.
struct Parity {
    name: &'static str,
    word: u64,
    odd: bool,
}

const PARITIES: &[Parity] = rows! {
    Parity { name, word, odd };
    "no bit", 0, false;
    "the lowest bit", 1, true;
    "two bits", 3, false;
    "the highest bit", 1 << 63, true;
    "all bits", u64::MAX, false;
    // By the worked example of XOR windows.
    "an address under an XOR map", 0x1_0000_4000 & 0x40_4100, true;
};

#[test]
fn counts_set_bits(rt: HostRuntime) {
    for row in PARITIES {
        row_passes(&rt, row.name, parity(row.word) == row.odd);
    }
}

/// The map of the worked XOR window takes the bits 8, 14 and 22. No map takes bit 52, and the first map tells the lowest bit.
fn takes_parities() -> bool {
    let maps = [0x40_4100, 0, 0, 0];
    let high = [0x40_4100 | 1 << 52, 0, 0, 0];
    let two = [0x100, 0x200, 0, 0];
    are_usable_maps(0, 1, &maps)
        && !are_usable_maps(1, 1, &maps)
        && !are_usable_maps(0, 1, &high)
        && parities(&two, 2, 0x100) == 1
        && parities(&maps, 1, 0x1_0000_4000) == 1
        && parities(&maps, 1, 0x1_0000_4100) == 0
}

fn multiplies_factors() -> bool {
    let twelve = Factors {
        third: true,
        bits: 2,
    };
    let sixteen = Factors {
        third: false,
        bits: 4,
    };
    factor_of(false) == 1 && ways_by(twelve) == 12 && ways_by(sixteen) == 16
}

#[test]
fn parities_and_factors(rt: HostRuntime) {
    assert!(rt; takes_parities());
    assert!(rt; with_raw_bits(0, 1, 0x1_0000_4000, 1) == 0x1_0000_4100);
    assert!(rt; multiplies_factors());
}

/// A base, a size, and the end or 1 where it is not below 2^64.
struct Row {
    name: &'static str,
    base: u64,
    size: u64,
    end: u64,
}

const ENDS: &[Row] = rows! {
    Row { name, base, size, end };
    "512 MiB at 4 GiB", 0x1_0000_0000, 0x2000_0000, 0x1_2000_0000;
    "nothing at 0", 0, 0, 0;
    "nothing at the last address", u64::MAX, 0, u64::MAX;
    "one byte at the last address", u64::MAX, 1, 1;
    "the upper half", 1 << 63, 1 << 63, 1;
};

fn ends(base: u64, size: u64, want: u64) -> bool {
    match checked_end(base, size) {
        Some(end) => end == want,
        None => want == 1,
    }
}

#[test]
fn ends_below_2_64(rt: HostRuntime) {
    for row in ENDS {
        row_passes(&rt, row.name, ends(row.base, row.size, row.end));
    }
}

#[test]
fn states_laws() {
    remainders_keep_digits();
    raw_bits_are_replaced();
    parities_tell_raw_bits();
}
