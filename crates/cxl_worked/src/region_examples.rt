//! What the definitions say of the regions of worked images: their endpoints, their device bytes, and images
//! that have the same decoders of a range.

ghost use Rattle.std.specs.Prelude.{◌≡◌, [], ◌∷◌, true};
ghost use Rattle.cxl_model.specs.Bytes.{LiesInSpan, slot_length};
ghost use Rattle.cxl_model.specs.Changes.{HaveSameDecoders};
ghost use Rattle.cxl_model.specs.Counts.{endpoints_of, endpoints_under};
ghost use Rattle.cxl_worked.specs.ExampleRegions.{region_of_two, region_of_six};
ghost use Rattle.cxl_worked.specs.Examples.{forwarding_bridges, six_ways, two_bridges, with_stray_range};
ghost use Rattle.cxl_model.specs.Regions.{region_range};
ghost use Rattle.cxl_model.specs.Rules.{lands_on};

/// A law of counts: the endpoints of worked regions, and those under a bridge.
pub fn endpoints_on_examples()
    ensures six { endpoints_of six_ways (region_range region_of_six) ≡ 3 ∷ 4 ∷ 5 ∷ 6 ∷ 7 ∷ 8 ∷ [] }
    ensures under { endpoints_under six_ways (region_range region_of_six) 1 ≡ 5 ∷ 6 ∷ [] }
    ensures below { endpoints_under six_ways (region_range region_of_six) 8 ≡ 8 ∷ [] }
    ensures forwarding { endpoints_under forwarding_bridges (region_range region_of_two) 1 ≡ 3 ∷ [] }
    ensures lands { lands_on forwarding_bridges (region_range region_of_two) 1 ≡ true }
{}

/// A law of device bytes: the last byte of a worked span, and how many it has.
pub fn spans_on_examples()
    ensures length { slot_length region_of_six ≡ 0x10000000 }
    ensures last { LiesInSpan region_of_six 8 0xfffffff }
{}

/// A law of changes: a second decoder of an endpoint leaves those of the first one's range as they are.
pub fn changes_on_examples()
    ensures { HaveSameDecoders two_bridges with_stray_range (region_range region_of_two) }
{}
