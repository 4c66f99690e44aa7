//! The record of a granularity's XOR maps (CXIMS).

ghost use Rattle.std.specs.Prelude.{◌≡◌, ◌≤◌, length};

use cxl_enc::FixedList;
use std::marker::Model;

/// A CXL XOR interleave math structure: the maps of one granularity. Its code is known.
#[derive(Drop)]
pub struct Cxims {
    gran: u8,
    maps: FixedList<u64>,
}

impl Model for Cxims {
    ghost use Rattle.cxl_table.specs.Fields.{CximsFields, IsCxims};

    ghost Value = { CximsFields };

    ghost view = { λ c. record { gran = c.gran; maps = c.maps } };

    ghost invariant = { λ c. IsCxims c.gran c.maps };
}

impl Cxims {
    /// The maps of a granularity code. Takes no memory.
    pub fn new(gran: u8, maps: Vec<u64>) -> Cxims
        requires gran { gran ≤ 6 }
        requires maps { length maps.items ≤ 255 }
        ensures { result ≡ record { gran = gran; maps = maps.items } }
    {
        Cxims {
            gran,
            maps: FixedList::new(maps),
        }
    }

    /// The granularity code.
    pub fn gran(&self) -> u8
        ensures value { result ≡ self.now.gran }
        ensures known { result ≤ 6 }
    {
        self.gran
    }

    /// The maps, one for each bit of the window's ways.
    pub fn maps(&self) -> &[u64]
        ensures value { result.now ≡ self.now.maps }
        ensures few { length self.now.maps ≤ 255 }
    {
        self.maps.items()
    }
}
