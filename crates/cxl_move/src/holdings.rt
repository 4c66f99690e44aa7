//! Laws of regions and the blocks of media that hold their bytes, each the contract of a function that does nothing.

ghost use Rattle.std.specs.Prelude.{◌≡◌, ◌↔◌, ℕ, List, ◌∷◌, Contains, Option, length, sum_by};
ghost use Rattle.std.specs.FinMap as map;
ghost use Rattle.cxl_media.specs.Blocks.{Blocks};
ghost use Rattle.cxl_model.specs.System.{System};
ghost use Rattle.cxl_model.specs.Contents.{Holding, AreMediaOf};
ghost use Rattle.cxl_move.specs.Sides.{IsPieceAt, AreHeld, IsCleared, IsMoved, IsCopied};
ghost use Rattle.cxl_move.specs.Holdings.{told_in, AreHoldings};

use crate::pieces::pieces_are_carried_to_blocks;
use cxl_model::regions_share_no_byte;

/// A law of media: the block to which a region carries a piece is in the map exactly where the piece is, with the
/// piece's bytes.
pub fn blocks_hold_their_pieces()
    ensures { (s : System) (holdings : List Holding) (one : Holding) (blocks : Blocks) (n endpoint block : ℕ)
        → AreHoldings s holdings → AreMediaOf holdings (told_in blocks) → Contains holdings one
        → IsPieceAt one.found one.window n endpoint block
        → map.get blocks (endpoint, block) ≡ map.get one.contents n }
{
    pieces_are_carried_to_blocks();
    regions_share_no_byte();
}

/// A law of media: it has as many blocks as the regions whose bytes it holds have pieces, and of each region those
/// that it has.
pub fn blocks_are_pieces()
    ensures all { (s : System) (holdings : List Holding) (blocks : Blocks) → AreHoldings s holdings
        → AreMediaOf holdings (told_in blocks)
        → map.len blocks ≡ sum_by (λ (one : Holding). map.len one.contents) holdings }
    ensures one { (s : System) (holdings : List Holding) (one : Holding) (blocks : Blocks) (pieces : List ℕ)
        → AreHoldings s holdings → AreMediaOf holdings (told_in blocks) → Contains holdings one
        → AreHeld one.found one.window blocks pieces → length pieces ≡ map.len one.contents }
{
    pieces_are_carried_to_blocks();
    regions_share_no_byte();
}

/// A law of media: it does not matter in which order the regions stand whose bytes it holds.
pub fn holdings_stand_in_any_order()
    ensures { (holdings others : List Holding) (media : ℕ → ℕ → Option (List ℕ)) → AreMediaOf holdings media
        → ((one : Holding) → (Contains holdings one) ↔ (Contains others one)) → AreMediaOf others media }
{}

/// A law of media: to put a block to which a region carries a piece gives the region that piece.
pub fn put_pieces_are_contents()
    ensures { (s : System) (one : Holding) (others : List Holding) (blocks : Blocks) (n endpoint block : ℕ)
        (bytes : List ℕ) → AreHoldings s (one ∷ others) → AreMediaOf (one ∷ others) (told_in blocks)
        → IsPieceAt one.found one.window n endpoint block
        → AreMediaOf ((record one { contents = map.insert one.contents n bytes }) ∷ others)
        (told_in (map.insert blocks (endpoint, block) bytes)) }
{
    pieces_are_carried_to_blocks();
    regions_share_no_byte();
}

/// A law of media: once a region's spans are cleared it holds the bytes of the others alone; and a region without
/// bytes is there at no cost.
pub fn cleared_regions_leave_media()
    ensures gone { (s : System) (one : Holding) (others : List Holding) (old new : Blocks)
        → AreHoldings s (one ∷ others) → AreMediaOf (one ∷ others) (told_in old) → IsCleared one.found old new
        → AreMediaOf others (told_in new) }
    ensures empty { (one : Holding) (others : List Holding) (media : ℕ → ℕ → Option (List ℕ))
        → AreMediaOf others media → AreMediaOf ((record one { contents = map.empty }) ∷ others) media }
{
    pieces_are_carried_to_blocks();
    regions_share_no_byte();
}

/// A law of carrying, in flat words, for two regions of one size: after a move the second has the bytes that the first
/// had and the first has none; after a copy both have those of the first. The bytes of all other regions stay.
pub fn carried_pieces_are_contents()
    ensures moved { (s : System) (from to : Holding) (others : List Holding) (old new : Blocks)
        → AreHoldings s (from ∷ to ∷ others) → from.found.size ≡ to.found.size
        → AreMediaOf (from ∷ to ∷ others) (told_in old)
        → IsMoved from.found from.window to.found to.window old new
        → AreMediaOf ((record from { contents = map.empty }) ∷ (record to { contents = from.contents }) ∷ others)
        (told_in new) }
    ensures copied { (s : System) (from to : Holding) (others : List Holding) (old new : Blocks)
        → AreHoldings s (from ∷ to ∷ others) → from.found.size ≡ to.found.size
        → AreMediaOf (from ∷ to ∷ others) (told_in old)
        → IsCopied from.found from.window to.found to.window old new
        → AreMediaOf (from ∷ (record to { contents = from.contents }) ∷ others) (told_in new) }
{
    pieces_are_carried_to_blocks();
    regions_share_no_byte();
}
