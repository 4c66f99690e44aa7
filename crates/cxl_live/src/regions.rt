//! The live regions of a session, in the order in which they were made, and found by address.

ghost use Rattle.std.specs.Prelude.{◌≡◌, ◌<◌, ◌≤◌, [], ◌∷◌, ◌++◌, length, insert, remove, position, slice_get, Some, IfOk};
ghost use Rattle.cxl_machine.specs.Machine.{has_host};
ghost use Rattle.cxl_model.specs.Listed.{region_limit};
ghost use Rattle.cxl_live.specs.Apart.{LieApart};

use crate::ordering::{BaseAt, bases_up_to, insert_by_base, order, take_out};
use cxl_enc::Memory;
use cxl_machine::REGION_LIMIT;
use cxl_model::Found;
use std::alloc::Global;
use std::marker::Model;

/// Live regions in the order in which they were made, with room for as many as may live. Contracts see them as their list.
#[derive(Drop)]
pub struct LiveRegions {
    founds: Vec<Found>,
    // Their bases, rising, by which a host address finds its region.
    bases: Vec<BaseAt>,
}

impl Model for LiveRegions {
    ghost use Rattle.std.specs.Prelude.{List};
    ghost use Rattle.cxl_model.specs.declared.found.Found.{Found};

    ghost Value = { List Found };

    ghost use Rattle.cxl_live.specs.Inside.{founds_of, AreLiveInOrder};

    ghost view = { founds_of };

    ghost invariant = { AreLiveInOrder };
}

impl LiveRegions {
    /// These regions. Takes memory, for as many as may live.
    pub fn new(alloc: Global, mut founds: Vec<Found>) -> Result<LiveRegions, Memory>
        requires { length founds.items ≤ region_limit }
        ensures { IfOk result (λ regions. regions ≡ founds.items) }
    {
        let mut roomy = Vec::with_capacity(alloc, REGION_LIMIT)?;
        roomy.append(&mut founds)?;
        let mut bases = Vec::with_capacity(alloc, REGION_LIMIT)?;
        order(&mut bases, &roomy);
        Ok(LiveRegions {
            founds: roomy,
            bases,
        })
    }

    /// The regions, in their order.
    pub fn as_slice(&self) -> &[Found]
        ensures { result.now ≡ self.now }
    {
        self.founds.as_slice()
    }

    /// How many there are.
    pub fn len(&self) -> usize
        ensures { result ≡ length self.now }
    {
        self.founds.len()
    }

    /// The region at a place.
    pub fn at(&self, place: usize) -> &Found
        requires { place < length self.now }
        ensures { slice_get self.now place ≡ Some result.now }
    {
        &self.founds[place]
    }

    /// The place of the region that holds a host address, `None` where none does: a search by base, where none holds
    /// the base of another.
    pub fn holder(&self, h: u64) -> Option<usize>
        ensures { LieApart self.now → result ≡ position (λ found. has_host found h) self.now }
    {
        let reached = bases_up_to(&self.bases, h);
        if reached == 0 {
            return None;
        }
        let place = self.bases[reached - 1].place;
        let found = &self.founds[place];
        if h - found.base < found.size {
            Some(place)
        } else {
            None
        }
    }

    /// A region is live, behind the others. Takes no memory.
    pub fn push(&mut self, found: Found)
        requires { length self.old < region_limit }
        ensures { self.new ≡ self.old ++ found ∷ [] }
    {
        let base = found.base;
        let place = self.founds.len();
        insert_by_base(&mut self.bases, BaseAt { base, place });
        let _found = self.founds.push(found);
    }

    /// A region is live at this place, before those that stood there and behind. Takes no memory.
    pub fn insert(&mut self, place: usize, found: Found)
        requires place { place ≤ length self.old }
        requires room { length self.old < region_limit }
        ensures { self.new ≡ insert self.old place found }
    {
        let _found = self.founds.insert(place, found);
        order(&mut self.bases, &self.founds);
    }

    /// The region at a place is no longer live.
    pub fn remove(&mut self, place: usize) -> Found
        requires { place < length self.old }
        ensures items { self.new ≡ remove self.old place }
        ensures value { slice_get self.old place ≡ Some result }
    {
        let base = self.founds[place].base;
        take_out(&mut self.bases, base, place);
        self.founds.remove(place)
    }
}
