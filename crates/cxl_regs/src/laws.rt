//! Laws of writes, each the contract of a function that does nothing.

ghost use Rattle.std.specs.Prelude.{◌≡◌, ℕ, ◌<◌, ◌^◌, List};
ghost use Rattle.cxl_regs.specs.Registers.{Registers, IsBlock, IsSameShape};
ghost use Rattle.cxl_regs.specs.Writes.{after_word};
ghost use Rattle.cxl_regs.specs.Blocks.{HasPlacesOf, blocks_after};

/// A law of blocks: a write of a word of 32 bits leaves a block, of the same shape.
pub fn write_laws()
    ensures shape { (block : Registers) (off v : ℕ) → IsSameShape block (after_word block off v).block }
    ensures block { (block : Registers) (off v : ℕ) → IsBlock block → v < 2 ^ 32 → IsBlock (after_word block off v).block }
{}

/// A law of the blocks of several nodes: each word that reads before a write to one of them reads after it.
pub fn writes_keep_places()
    ensures { (blocks : List Registers) (node off v : ℕ) → HasPlacesOf blocks (blocks_after blocks node off v) }
{}
