//! Where the frame of each block is: an open-addressed table.

ghost use Rattle.std.specs.Prelude.{◌≡◌, ◌+◌, ◌*◌, ◌%◌, ◌<◌, ◌≤◌, Bool, [], None, IfOk, Some, IfSome, IfNone, length};
ghost use Rattle.std.specs.Option.{option_copied};
ghost use Rattle.std.specs.FinMap as map;
ghost use Rattle.cxl_enc.specs.Limits.{frame_limit};
ghost use Rattle.cxl_media.specs.Blocks.{Key, is_between};
ghost use Rattle.cxl_media.specs.Table.{key_at, cell_at, frames_in, passes, IsOnce, IsStop, NonePass};
ghost use Rattle.cxl_media.specs.Hash.{home_of};

use crate::Frame;
use crate::bytes::is_between;
use crate::cell::Cell;
use crate::cell_list::CellList;
use crate::probe::{home, seek, take_out};
use cxl_enc::Memory;
use std::alloc::Global;
use std::marker::Model;

/// Where the frame of each block is: an open-addressed table whose cells are made once, and the blocks, each at a place
/// of its own, without a gap. A block is sought from its home upwards, and its home is one of the lower two thirds of
/// the cells.
#[derive(Drop)]
pub struct Index {
    cells: CellList,
    room: u32,
}

impl Model for Index {
    ghost use Rattle.cxl_media.specs.Index.{Table, coded_table};

    ghost Value = { Table };

    ghost coded = { coded_table };

    ghost use Rattle.cxl_media.specs.Index.{IsIndex};

    ghost view = { λ a. record { cells = a.cells.kept; room = a.room } };

    ghost invariant = { λ a. IsIndex a.cells.cells a.cells.kept a.room };
}

impl Index {
    ghost use Rattle.cxl_media.specs.declared.cell.Cell.{Cell};

    /// An index without a block. Takes no memory.
    pub fn empty(alloc: Global) -> Index
        ensures cells { result.cells ≡ [] }
        ensures room { result.room ≡ 0 }
    {
        Index {
            cells: CellList::empty(alloc),
            room: 0,
        }
    }

    /// An index with room for so many blocks.
    pub fn new(alloc: Global, room: u32) -> Result<Index, Memory>
        requires { room ≤ frame_limit }
        ensures frames { IfOk result (λ index. frames_in index.cells ≡ map.empty) }
        ensures room { IfOk result (λ index. index.room ≡ room) }
    {
        let cells = CellList::new(alloc, room)?;
        Ok(Index { cells, room })
    }

    /// The frame of a block.
    pub fn find(&self, ep: u32, number: u64) -> Option<&Frame>
        ensures { option_copied result ≡ map.get (frames_in self.now.cells) (ep, number) }
    {
        match self.cells.at(stop(&self.cells, self.room, ep, number)) {
            Some(cell) => Some(&cell.frame),
            None => None,
        }
    }

    /// The place of a block.
    pub fn place(&self, ep: u32, number: u64) -> Option<usize>
        ensures there { IfSome result (λ place. (cell : Cell) × (cell_at self.now.cells place ≡ Some cell) × (key_at cell ≡ (ep, number))) }
        ensures within { IfSome result (λ place. place < length self.now.cells) }
        ensures none { IfNone result (map.get (frames_in self.now.cells) (ep, number) ≡ None) }
    {
        let at = stop(&self.cells, self.room, ep, number);
        if at == self.cells.len() {
            return None;
        }
        self.cells.place_of(at)
    }

    /// Adds a block that is not there, in a frame of its own.
    pub fn add(&mut self, ep: u32, number: u64, frame: Frame)
        requires absent { map.get (frames_in self.old.cells) (ep, number) ≡ None }
        requires room { map.len (frames_in self.old.cells) < self.old.room }
        ensures frames { frames_in self.new.cells ≡ map.insert (frames_in self.old.cells) (ep, number) frame }
        ensures room { self.new.room ≡ self.old.room }
    {
        let at = stop(&self.cells, self.room, ep, number);
        self.cells.put(at, Cell { ep, number, frame });
    }

    /// How many blocks there are. Each stands at one place, from 0 on.
    pub fn len(&self) -> usize
        ensures count { result ≡ length self.now.cells }
        ensures few { result ≤ frame_limit }
        ensures once { IsOnce self.now.cells }
    {
        self.cells.count()
    }

    /// Whether the block at a place is one between two device addresses of an endpoint.
    pub fn has_between(&self, place: usize, ep: u32, from: u64, to: u64) -> bool
        requires from { from % 256 ≡ 0 }
        requires to { to % 256 ≡ 0 }
        ensures { result ≡ passes (is_between ep from to) (cell_at self.now.cells place) }
    {
        match self.at(place) {
            Some(cell) => is_between(cell.ep, cell.number, ep, from, to),
            None => false,
        }
    }

    /// The block at a place, which is nothing past the last one.
    pub fn at(&self, place: usize) -> Option<&Cell>
        ensures { option_copied result ≡ cell_at self.now.cells place }
    {
        self.cells.kept(place)
    }

    /// Takes the block at a place out, and gives back its frame. The last block takes its place.
    pub fn remove(&mut self, place: usize) -> Frame
        requires { place < length self.old.cells }
        ensures frame { IfSome (cell_at self.old.cells place) (λ cell.
            map.get (frames_in self.old.cells) (key_at cell) ≡ Some result) }
        ensures frames { IfSome (cell_at self.old.cells place) (λ cell.
            frames_in self.new.cells ≡ map.remove (frames_in self.old.cells) (key_at cell)) }
        ensures later { (test : Key → Bool) → NonePass test self.old.cells (place + 1) → NonePass test self.new.cells place }
        ensures room { self.new.room ≡ self.old.room }
    {
        take_out(&mut self.cells, 2 * self.room, place).frame
    }
}

/// The cell at which a probe for a block stops.
fn stop(cells: &CellList, room: u32, ep: u32, number: u64) -> usize
    requires { room ≤ frame_limit }
    ensures { IsStop cells.now.cells (home_of (2 * room) (ep, number)) (ep, number) result }
{
    seek(cells, home(ep, number, 2 * room), ep, number)
}
