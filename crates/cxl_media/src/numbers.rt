//! Numbers by place, all 0 at first, of which only those parts take time and memory in which another was put.

ghost use Rattle.std.specs.Prelude.{◌≡◌, ℕ, ◌+◌, ◌*◌, ◌<◌, ◌≤◌, IfOk, length, replicate, slice_index, slice_set};
ghost use Rattle.std.specs.Vec.{vec_capacity};
ghost use Rattle.cxl_enc.specs.Limits.{frame_limit};
ghost use Rattle.cxl_media.specs.Numbers.{number_at, no_numbers, AreParts};

use cxl_enc::Memory;
use std::alloc::Global;
use std::marker::Model;

/// Numbers by place, as many as are asked for, all 0 at first. They stand in parts of 256 numbers, and a part is made
/// when a number is first put there; the numbers of one that was not made are 0.
#[derive(Drop)]
pub struct Numbers {
    // How many numbers there are.
    total: usize,
    // By part: 0 where it was not made, and else one more than its place among those that were.
    parts: Vec<u32>,
    // In the order in which they were made. There is room for all.
    made: Vec<[u32; 256]>,
}

impl Model for Numbers {
    ghost use Rattle.std.specs.Prelude.{List, ℕ};

    ghost Value = { List ℕ };

    ghost use Rattle.std.specs.Vec.{vec_capacity};
    ghost use Rattle.cxl_media.specs.Numbers.{numbers_of, AreParts};

    ghost view = { λ n. numbers_of n.parts.items n.made.items n.total };

    ghost invariant = { λ n. AreParts n.parts.items n.made.items n.total (vec_capacity n.made) };
}

impl Numbers {
    ghost use Rattle.std.specs.Prelude.{[]};

    /// No number. Takes no memory.
    pub fn empty(alloc: Global) -> Numbers
        ensures { result ≡ [] }
    {
        Numbers {
            total: 0,
            parts: Vec::new(alloc),
            made: Vec::new(alloc),
        }
    }

    /// So many numbers, all 0.
    pub fn new(alloc: Global, total: usize) -> Result<Numbers, Memory>
        requires { total ≤ 3 * frame_limit }
        ensures { IfOk result (λ numbers. numbers ≡ replicate total 0) }
    {
        let count = total.div_ceil(256);
        let parts = Vec::from_elem(alloc, 0_u32, count)?;
        let made = Vec::with_capacity(alloc, count)?;
        Ok(Numbers { total, parts, made })
    }

    /// How many there are.
    pub fn len(&self) -> usize
        ensures { result ≡ length self.now }
    {
        self.total
    }

    /// The number at a place.
    pub fn get(&self, at: usize) -> u32
        requires { at < length self.now }
        ensures { result ≡ slice_index self.now at }
    {
        let part = self.parts[at / 256];
        if part == 0 {
            return 0;
        }
        number_in(&self.made[part as usize - 1], at % 256)
    }

    /// Puts a number at a place.
    pub fn set(&mut self, at: usize, number: u32)
        requires { at < length self.old }
        ensures { self.new ≡ slice_set self.old at number }
    {
        let place = place_of_part(&mut self.parts, &mut self.made, at / 256);
        write_in(&mut self.made[place], at % 256, number);
    }
}

/// The place of a part among those that were made. It is made where it was not.
fn place_of_part(parts: &mut Vec<u32>, made: &mut Vec<[u32; 256]>, part: usize) -> usize
    requires within { part < length parts.old.items }
    requires are { (total : ℕ) × AreParts parts.old.items made.old.items total (vec_capacity made.old) }
    ensures named { slice_index parts.new.items part ≡ result + 1 }
    ensures same { (k : ℕ) → number_at parts.new.items made.new.items k ≡ number_at parts.old.items made.old.items k }
    ensures are { (total : ℕ) → AreParts parts.old.items made.old.items total (vec_capacity made.old)
        → AreParts parts.new.items made.new.items total (vec_capacity made.new) }
{
    let named = parts[part];
    if named != 0 {
        return named as usize - 1;
    }
    let place = made.len();
    made.push_reserved(zeroed());
    parts[part] = place as u32 + 1;
    place
}

/// The numbers of a part that is made.
#[tactic(auto, unfolding(crate::specs::Numbers::no_numbers))]
fn zeroed() -> [u32; 256]
    ensures { result ≡ no_numbers }
{
    [0; 256]
}

fn number_in(part: &[u32; 256], at: usize) -> u32
    requires { at < 256 }
    ensures { result ≡ slice_index part.now at }
{
    part[at]
}

fn write_in(part: &mut [u32; 256], at: usize, number: u32)
    requires { at < 256 }
    ensures written { part.new ≡ slice_set part.old at number }
    ensures whole { length part.old ≡ 256 }
{
    part[at] = number;
}
