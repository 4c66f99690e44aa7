//! What the definitions say of the bytes of a worked region, and of the device blocks in which they stand.

ghost use Rattle.std.specs.Prelude.{◌≡◌, [], ◌∷◌};
ghost use Rattle.cxl_model.specs.Contents.{AreContents, KeepsPieceAt, AreMediaOf, content_at};
ghost use Rattle.cxl_worked.specs.ExampleContents.{first_two, four_bytes, holding_four, last_two, media_of_four};
ghost use Rattle.cxl_worked.specs.ExampleRegions.{region_of_two};

/// A law of contents: four bytes that were stored across the end of a chunk are those of a region, the bytes beside them
/// are zero, and they stand in one block of each of two devices.
pub fn contents_on_examples()
    ensures contents { AreContents region_of_two four_bytes }
    ensures before { content_at four_bytes 0xfd ≡ 0 }
    ensures first { content_at four_bytes 0xfe ≡ 0xaa }
    ensures second { content_at four_bytes 0xff ≡ 0xbb }
    ensures third { content_at four_bytes 0x100 ≡ 0xcc }
    ensures fourth { content_at four_bytes 0x101 ≡ 0xdd }
    ensures unwritten { content_at four_bytes 0x1fffffff ≡ 0 }
    ensures kept_first { KeepsPieceAt holding_four 0 2 0 last_two }
    ensures kept_second { KeepsPieceAt holding_four 1 3 0 first_two }
    ensures media { AreMediaOf (holding_four ∷ []) media_of_four }
{}
