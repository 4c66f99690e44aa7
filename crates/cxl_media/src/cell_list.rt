//! The cells of the index and the blocks that they name.

ghost use Rattle.std.specs.Prelude.{◌≡◌, ◌+◌, ◌*◌, ◌<◌, ◌≤◌, [], ◌∷◌, ◌++◌, None, Some, IfOk, IfSome, IfNone, IsSome, length, replicate, slice_index_or, slice_set, swap, swap_remove};
ghost use Rattle.std.specs.Option.{option_copied};
ghost use Rattle.cxl_enc.specs.Limits.{frame_limit};
ghost use Rattle.cxl_media.specs.declared.cell_list.KeptBlock.{KeptBlock};
ghost use Rattle.cxl_media.specs.Table.{cell_at};
ghost use Rattle.cxl_media.specs.CellList.{kept_of, block_named};

use crate::cell::Cell;
use crate::numbers::Numbers;
use cxl_enc::Memory;
use std::alloc::Global;
use std::marker::Model;

/// The cells of an index. A cell is a number, 0 where it is empty, and else one more than the place of its block among
/// those that are kept, without a gap. So what is never touched takes neither time nor memory, and the blocks can be
/// gone through without a look at the cells.
#[derive(Drop)]
pub struct CellList {
    numbers: Numbers,
    // There is room for all.
    kept: Vec<KeptBlock>,
}

/// A block that is kept, and the cell that names its place.
#[derive(Drop)]
pub struct KeptBlock {
    cell: Cell,
    at: usize,
}

/// A block that was taken out, and the cell that named it.
#[derive(Drop)]
pub struct TakenBlock {
    pub cell: Cell,
    pub at: usize,
}

impl Model for CellList {
    ghost use Rattle.cxl_media.specs.CellList.{Listed, coded_listed};

    ghost Value = { Listed };

    ghost coded = { coded_listed };

    ghost use Rattle.std.specs.Vec.{vec_capacity};
    ghost use Rattle.cxl_media.specs.CellList.{cells_of, kept_of, ArePlaced};

    ghost view = { λ c. record { cells = cells_of c.numbers (kept_of c.kept.items); kept = kept_of c.kept.items } };

    ghost invariant = { λ c. ArePlaced c.numbers c.kept.items (vec_capacity c.kept) };
}

impl CellList {
    /// No cell. Takes no memory.
    pub fn empty(alloc: Global) -> CellList
        ensures cells { result.cells ≡ [] }
        ensures kept { result.kept ≡ [] }
    {
        CellList {
            numbers: Numbers::empty(alloc),
            kept: Vec::new(alloc),
        }
    }

    /// Empty cells, three for each block that there is room for.
    pub fn new(alloc: Global, room: u32) -> Result<CellList, Memory>
        requires { room ≤ frame_limit }
        ensures cells { IfOk result (λ cells. cells.cells ≡ replicate (3 * room) None) }
        ensures kept { IfOk result (λ cells. cells.kept ≡ []) }
    {
        let numbers = Numbers::new(alloc, 3 * room as usize)?;
        let kept = Vec::with_capacity(alloc, room as usize)?;
        Ok(CellList { numbers, kept })
    }

    /// How many cells there are.
    pub fn len(&self) -> usize
        ensures { result ≡ length self.now.cells }
    {
        self.numbers.len()
    }

    /// How many blocks are kept.
    pub fn count(&self) -> usize
        ensures { result ≡ length self.now.kept }
    {
        self.kept.len()
    }

    /// What stands at a cell, which is nothing past the last one.
    pub fn at(&self, at: usize) -> Option<&Cell>
        ensures { option_copied result ≡ cell_at self.now.cells at }
    {
        if at < self.numbers.len() {
            block_named(&self.kept, self.numbers.get(at))
        } else {
            None
        }
    }

    /// The place of the block at a cell.
    pub fn place_of(&self, at: usize) -> Option<usize>
        requires { at < length self.now.cells }
        ensures found { IfSome result (λ place. cell_at self.now.kept place ≡ cell_at self.now.cells at) }
        ensures within { IfSome result (λ place. place < length self.now.kept) }
        ensures none { IfNone result (cell_at self.now.cells at ≡ None) }
    {
        let number = self.numbers.get(at);
        if number == 0 {
            return None;
        }
        Some(number as usize - 1)
    }

    /// The block at a place, which is nothing past the last one.
    pub fn kept(&self, place: usize) -> Option<&Cell>
        ensures { option_copied result ≡ cell_at self.now.kept place }
    {
        kept_at(&self.kept, place)
    }

    /// Puts a block into an empty cell. It is kept behind the others.
    pub fn put(&mut self, at: usize, cell: Cell)
        requires within { at < length self.old.cells }
        requires empty { cell_at self.old.cells at ≡ None }
        requires room { 3 * length self.old.kept < length self.old.cells }
        ensures cells { self.new.cells ≡ slice_set self.old.cells at (Some cell) }
        ensures kept { self.new.kept ≡ self.old.kept ++ Some cell ∷ [] }
    {
        self.kept.push_reserved(KeptBlock { cell, at });
        let number = self.kept.len() as u32;
        self.numbers.set(at, number);
    }

    /// Takes out the block at a place. The last block takes its place.
    pub fn take(&mut self, place: usize) -> TakenBlock
        requires { place < length self.old.kept }
        ensures block { cell_at self.old.kept place ≡ Some result.cell }
        ensures there { cell_at self.old.cells result.at ≡ Some result.cell }
        ensures cells { self.new.cells ≡ slice_set self.old.cells result.at None }
        ensures kept { self.new.kept ≡ swap_remove self.old.kept place (Some result.cell) }
    {
        let KeptBlock { cell, at } = self.kept.swap_remove(place);
        self.numbers.set(at, 0);
        name_place(&mut self.numbers, &self.kept, place);
        TakenBlock { cell, at }
    }

    /// Lets a block stand at an empty cell in place of its own.
    pub fn bring(&mut self, empty: usize, from: usize)
        requires within { empty < length self.old.cells }
        requires empty { cell_at self.old.cells empty ≡ None }
        requires taken { IsSome (cell_at self.old.cells from) }
        ensures cells { self.new.cells ≡ swap self.old.cells empty from }
        ensures kept { self.new.kept ≡ self.old.kept }
    {
        let number = self.numbers.get(from);
        self.numbers.set(empty, number);
        self.numbers.set(from, 0);
        self.kept[number as usize - 1].stand_at(empty);
    }
}

impl KeptBlock {
    fn cell_of(&self) -> usize
        ensures { result ≡ self.now.at }
    {
        self.at
    }

    fn stand_at(&mut self, at: usize)
        ensures { self.new ≡ record self.old { at = at } }
    {
        self.at = at;
    }
}

/// Lets the cell of the block at a place, where there is one, name that place.
fn name_place(numbers: &mut Numbers, kept: &[KeptBlock], place: usize)
    requires few { length kept.now ≤ frame_limit }
    requires within { (d : KeptBlock) → place < length kept.now → (slice_index_or kept.now place d).at < length numbers.old }
    ensures there { (d : KeptBlock) → place < length kept.now
        → numbers.new ≡ slice_set numbers.old (slice_index_or kept.now place d).at (place + 1) }
    ensures none { length kept.now ≤ place → numbers.new ≡ numbers.old }
{
    if place < kept.len() {
        numbers.set(kept[place].cell_of(), place as u32 + 1);
    }
}

/// The block that a number names.
fn block_named(kept: &[KeptBlock], number: u32) -> Option<&Cell>
    ensures { option_copied result ≡ block_named (kept_of kept.now) number }
{
    if number == 0 {
        return None;
    }
    kept_at(kept, number as usize - 1)
}

/// The block at a place, which is nothing past the last one.
fn kept_at(kept: &[KeptBlock], place: usize) -> Option<&Cell>
    ensures { option_copied result ≡ cell_at (kept_of kept.now) place }
{
    if place < kept.len() {
        Some(&kept[place].cell)
    } else {
        None
    }
}
