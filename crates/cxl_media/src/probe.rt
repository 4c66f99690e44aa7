//! How a block is sought among the cells, and how one is taken out.

ghost use Rattle.std.specs.Prelude.{◌≡◌, ◌<◌, ◌↔◌, IsTrue, Some, length, swap_remove};
ghost use Rattle.std.specs.Option.{option_copied};
ghost use Rattle.std.specs.FinMap.{remove};
ghost use Rattle.cxl_media.specs.Table.{key_at, cell_at, frames_in, StopsProbe, IsStop, IsTable, HasHole};
ghost use Rattle.cxl_media.specs.Hash.{home_of};

use crate::cell::Cell;
use crate::cell_list::{CellList, TakenBlock};

/// The cell from which a block is sought. It is below `homes`, and 0 where that is.
#[tactic(auto, unfolding(crate::specs::Hash::mixed))]
pub fn home(ep: u32, number: u64, homes: u32) -> usize
    ensures { result ≡ home_of homes (ep, number) }
{
    // Two odd numbers whose bits have no pattern spread the blocks, also where their numbers have one.
    let spread = u64::from(ep)
        .wrapping_mul(0xD1B5_4A32_D192_ED03)
        .wrapping_add(number)
        .wrapping_mul(0x9E37_79B9_7F4A_7C15);
    let mixed = (spread ^ (spread >> 32)).wrapping_mul(0xD1B5_4A32_D192_ED03);
    ((mixed >> 32) * u64::from(homes) >> 32) as usize
}

/// The first cell from a block's home on that is of the block or is empty; past the last cell where none is.
pub fn seek(cells: &CellList, home: usize, ep: u32, number: u64) -> usize
    ensures { IsStop cells.now.cells home (ep, number) result }
{
    for at in home..cells.len() {
        if stops(cells.at(at), ep, number) {
            return at;
        }
    }
    cells.len()
}

fn stops(cell: Option<&Cell>, ep: u32, number: u64) -> bool
    ensures { IsTrue result ↔ StopsProbe (ep, number) (option_copied cell.entry) }
{
    match cell {
        None => true,
        Some(cell) => cell.is_of(ep, number),
    }
}

/// Takes the block at a place out of a table. Blocks above its cell come down, so that a probe for each still meets it
/// before an empty cell.
pub fn take_out(cells: &mut CellList, homes: u32, place: usize) -> Cell
    requires table { IsTable (home_of homes) cells.old.cells }
    requires within { place < length cells.old.kept }
    ensures block { cell_at cells.old.kept place ≡ Some result }
    ensures table { IsTable (home_of homes) cells.new.cells }
    ensures frames { frames_in cells.new.cells ≡ remove (frames_in cells.old.cells) (key_at result) }
    ensures kept { cells.new.kept ≡ swap_remove cells.old.kept place (Some result) }
    ensures length { length cells.new.cells ≡ length cells.old.cells }
{
    let TakenBlock { cell, at } = cells.take(place);
    close(cells, homes, at);
    cell
}

// Goes through the cells above a hole up to the next empty one, and moves down into the hole each block whose probe
// crosses it.
fn close(cells: &mut CellList, homes: u32, from: usize)
    requires { HasHole (home_of homes) cells.old.cells from }
    ensures table { IsTable (home_of homes) cells.new.cells }
    ensures frames { frames_in cells.new.cells ≡ frames_in cells.old.cells }
    ensures kept { cells.new.kept ≡ cells.old.kept }
    ensures length { length cells.new.cells ≡ length cells.old.cells }
{
    let end = cells.len();
    let mut hole = from;
    for at in from + 1..end {
        let Some(cell) = cells.at(at) else {
            return;
        };
        if home(cell.ep, cell.number, homes) <= hole {
            cells.bring(hole, at);
            hole = at;
        }
    }
}
