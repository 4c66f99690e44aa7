//! How a region's bytes are dealt over its slots, and gathered back: what a weave tells, and laws. Addresses stand in `worked/`.

use cxl_deal::{
    Dealt, Weave, chunks_deal_whole, deal, gather, place_tells_address, region_fills_slots,
    slot_digits, slots_keep_entries, slots_keep_positions,
};

/// Whether a weave of six ways is told as it was made.
fn is_of_six(six: &Weave) -> bool {
    six.ways() == 6
        && six.base() == 0x1_0000_0000
        && six.gran() == 0
        && six.root_bits() == 1
        && six.low_bits() == 0
        && six.third()
        && six.xor()
        && six.maps() == SIX_MAPS
}

const SIX_MAPS: [u64; 4] = [0x40_4100, 0, 0, 0];

#[test]
fn keeps_fields(rt: HostRuntime) {
    let six = Weave::new(0x1_0000_0000, 0, 1, true, 0, true, SIX_MAPS);
    assert!(rt; is_of_six(&six));
    let place = Dealt {
        slot: 1,
        offset: 0xb00,
    };
    assert!(rt; deal(&six, 0x1_0000_4200) == place && gather(&six, 1, 0xb00) == 0x1_0000_4200);
}

#[test]
fn states_laws() {
    slot_digits();
    place_tells_address();
    region_fills_slots();
    chunks_deal_whole();
    slots_keep_positions();
    slots_keep_entries();
}
