//! What the definitions say of ranges of worked regions.

ghost use Rattle.std.specs.Prelude.{◌≡◌, [], ◌∷◌};
ghost use Rattle.cxl_range.specs.Extents.{extents_of, bytes_on};
ghost use Rattle.cxl_worked.specs.ExampleLayouts.{window_of_one};
ghost use Rattle.cxl_worked.specs.ExampleRanges.{extent, region_behind, region_in_thirds, region_of_tebibyte, window_in_thirds, window_of_tebibyte};
ghost use Rattle.cxl_worked.specs.ExampleRegions.{region_by_map, window_of_six, with_map};

/// A law of extents: those of some ranges of worked regions.
pub fn extents_on_examples()
    ensures four_ways { extents_of region_of_tebibyte window_of_tebibyte 0x1000000080 512
        ≡ extent 0x1000000080 128 0 0x80 ∷ extent 0x1000000100 256 1 0
        ∷ extent 0x1000000200 128 2 0 ∷ [] }
    ensures three_ways { extents_of region_in_thirds window_in_thirds 0x1000002ff 2
        ≡ extent 0x1000002ff 1 2 0xff ∷ extent 0x100000300 1 0 0x100 ∷ [] }
    ensures by_map { extents_of region_by_map (with_map window_of_six) 0x1000041c0 0x80
        ≡ extent 0x1000041c0 0x40 4 0xac0 ∷ extent 0x100004200 0x40 1 0xb00 ∷ [] }
    ensures one_way { extents_of region_behind window_of_one 0x1100000ff 0x1000
        ≡ extent 0x1100000ff 0x1000 0 0x100000ff ∷ [] }
{}

/// A law of spreads: how many bytes of some ranges of worked regions are dealt to some slots.
pub fn spreads_on_examples()
    ensures first { bytes_on region_of_tebibyte window_of_tebibyte 0x1000000080 0x700 0 ≡ 384 }
    ensures second { bytes_on region_of_tebibyte window_of_tebibyte 0x1000000080 0x700 1 ≡ 512 }
    ensures third { bytes_on region_of_tebibyte window_of_tebibyte 0x1000000080 0x700 2 ≡ 512 }
    ensures fourth { bytes_on region_of_tebibyte window_of_tebibyte 0x1000000080 0x700 3 ≡ 384 }
    ensures past { bytes_on region_of_tebibyte window_of_tebibyte 0x1000000080 0x700 4 ≡ 0 }
    ensures by_map { bytes_on region_by_map (with_map window_of_six) 0x1000041c0 0x80 1 ≡ 0x40 }
    ensures one_way { bytes_on region_behind window_of_one 0x1100000ff 0x100 0 ≡ 0x100 }
{}
