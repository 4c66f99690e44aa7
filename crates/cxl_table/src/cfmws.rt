//! The record of a fixed memory window (CFMWS).

ghost use Rattle.std.specs.Prelude.{◌≡◌, ◌≤◌, Some, length};
ghost use Rattle.cxl_enc.specs.Codes.{ways_of};

use cxl_enc::FixedList;
use std::marker::Model;

/// A CXL fixed memory window structure: a range of host addresses over some host bridges. Its codes are
/// known, and it has one target for each way.
#[derive(Drop)]
pub struct Cfmws {
    base: u64,
    size: u64,
    ways: u8,
    xor: bool,
    gran: u8,
    restrict: u16,
    qtg: u16,
    targets: FixedList<u32>,
}

impl Model for Cfmws {
    ghost use Rattle.cxl_table.specs.Fields.{CfmwsFields, IsCfmws};

    ghost Value = { CfmwsFields };

    ghost view = { λ c. record { base = c.base; size = c.size; ways = c.ways; xor = c.xor; gran = c.gran; restrict = c.restrict; qtg = c.qtg; targets = c.targets } };

    ghost invariant = { λ c. IsCfmws c.ways c.gran c.targets };
}

impl Cfmws {
    /// A window with these fields. `ways` and `gran` are codes. Takes no memory.
    pub fn new(
        base: u64,
        size: u64,
        ways: u8,
        xor: bool,
        gran: u8,
        restrict: u16,
        qtg: u16,
        targets: Vec<u32>,
    ) -> Cfmws
        requires ways { ways_of ways ≡ Some (length targets.items) }
        requires gran { gran ≤ 6 }
        ensures { result ≡ record { base = base; size = size; ways = ways; xor = xor; gran = gran; restrict = restrict; qtg = qtg; targets = targets.items } }
    {
        Cfmws {
            base,
            size,
            ways,
            xor,
            gran,
            restrict,
            qtg,
            targets: FixedList::new(targets),
        }
    }

    /// The first host address.
    pub fn base(&self) -> u64
        ensures { result ≡ self.now.base }
    {
        self.base
    }

    /// In bytes.
    pub fn size(&self) -> u64
        ensures { result ≡ self.now.size }
    {
        self.size
    }

    /// The ways code.
    pub fn ways(&self) -> u8
        ensures value { result ≡ self.now.ways }
        ensures known { ways_of result ≡ Some (length self.now.targets) }
    {
        self.ways
    }

    /// Whether the arithmetic is modulo with XOR.
    pub fn xor(&self) -> bool
        ensures { result ≡ self.now.xor }
    {
        self.xor
    }

    /// The granularity code.
    pub fn gran(&self) -> u8
        ensures value { result ≡ self.now.gran }
        ensures known { result ≤ 6 }
    {
        self.gran
    }

    /// The restriction bits.
    pub fn restrict(&self) -> u16
        ensures { result ≡ self.now.restrict }
    {
        self.restrict
    }

    /// The QoS throttling group.
    pub fn qtg(&self) -> u16
        ensures { result ≡ self.now.qtg }
    {
        self.qtg
    }

    /// The UIDs of the target bridges, one for each way.
    pub fn targets(&self) -> &[u32]
        ensures value { result.now ≡ self.now.targets }
        ensures few { length self.now.targets ≤ 16 }
    {
        self.targets.items()
    }
}
