//! A window and its verdict.

ghost use Rattle.std.specs.Prelude.{◌≡◌, ◌≤◌, IsTrue, length};
ghost use Rattle.cxl_enc.specs.Codes.{is_ways, bits_of};

use crate::cfmws::cfmws_ways;
use cxl_enc::{FixedList, Memory};
use cxl_table::Cfmws;
use std::alloc::Global;
use std::marker::Model;

/// Whether a window can be used, and else the first cause. (This project's rule.)
#[derive(Clone, Copy, PartialEq, Eq)]
pub enum Verdict {
    Usable,
    /// The base is no multiple of 256 MiB.
    Align,
    /// The size is 0 or no multiple of 256 MiB for each way.
    Size,
    /// The end exceeds 2^52.
    TooHigh,
    /// It shares an address with the earlier window of this index.
    Overlap(u32),
    /// The target of this UID is no CXL 2.0 bridge of the table, or none of the topology.
    Target(u32),
    /// The target of this UID stands in the list twice.
    Repeat(u32),
    /// The XOR maps of its granularity are missing, too few or not usable.
    Maps,
}

/// A fixed memory window, as `windows` judged it.
#[derive(Drop)]
pub struct Window {
    index: u32,
    base: u64,
    size: u64,
    ways: u8,
    gran: u8,
    xor: bool,
    maps: [u64; 4],
    restrict: u16,
    targets: FixedList<u32>,
    verdict: Verdict,
}

impl Model for Window {
    ghost use Rattle.cxl_window.specs.Fields.{WindowFields, IsWindow};

    ghost Value = { WindowFields };

    ghost view = { λ w. record { index = w.index; base = w.base; size = w.size; ways = w.ways; gran = w.gran; xor = w.xor; maps = w.maps; restrict = w.restrict; targets = w.targets; verdict = w.verdict } };

    ghost invariant = { λ w. IsWindow (record { index = w.index; base = w.base; size = w.size; ways = w.ways; gran = w.gran; xor = w.xor; maps = w.maps; restrict = w.restrict; targets = w.targets; verdict = w.verdict }) };
}

impl Window {
    ghost use Rattle.std.specs.Prelude.{IfOk};
    ghost use Rattle.cxl_window.specs.declared.window.Verdict.TheVariants.{Usable};
    ghost use Rattle.cxl_num.specs.Maps.{are_usable_maps};
    ghost use Rattle.cxl_window.specs.Fields.{IsWindow, IsUsable};
    ghost use Rattle.cxl_window.specs.Position.{is_usable};
    ghost use Rattle.cxl_window.specs.Windows.{window_with};

    /// The window of a record with its index, its maps and its verdict.
    pub(crate) fn new(
        alloc: Global,
        index: u32,
        cfmws: &Cfmws,
        maps: [u64; 4],
        verdict: Verdict,
    ) -> Result<Window, Memory>
        requires { verdict ≡ Usable → IsUsable (window_with index maps verdict cfmws.now) }
        ensures value { IfOk result (λ w. w ≡ window_with index maps verdict cfmws.now) }
        ensures window { IfOk result IsWindow }
    {
        let targets = Vec::from_slice(alloc, cfmws.targets())?;
        Ok(Window {
            index,
            base: cfmws.base(),
            size: cfmws.size(),
            ways: cfmws_ways(cfmws),
            gran: cfmws.gran(),
            xor: cfmws.xor(),
            maps,
            restrict: cfmws.restrict(),
            targets: FixedList::new(targets),
            verdict,
        })
    }

    /// Its place among the windows of the table.
    pub fn index(&self) -> u32
        ensures value { result ≡ self.now.index }
        ensures window { IsWindow self.now }
    {
        self.index
    }

    /// The first host address.
    pub fn base(&self) -> u64
        ensures { result ≡ self.now.base }
    {
        self.base
    }

    /// In bytes.
    pub fn size(&self) -> u64
        ensures { result ≡ self.now.size }
    {
        self.size
    }

    /// The number of ways: 1, 2, 3, 4, 6, 8, 12 or 16.
    pub fn ways(&self) -> u8
        ensures value { result ≡ self.now.ways }
        ensures known { IsTrue (is_ways result) }
    {
        self.ways
    }

    /// The granularity code.
    pub fn gran(&self) -> u8
        ensures value { result ≡ self.now.gran }
        ensures known { result ≤ 6 }
    {
        self.gran
    }

    /// Whether the arithmetic is modulo with XOR.
    pub fn xor(&self) -> bool
        ensures { result ≡ self.now.xor }
    {
        self.xor
    }

    /// The XOR maps, one for each bit of the ways; unused ones are 0.
    pub fn maps(&self) -> &[u64]
        ensures value { result.now ≡ self.now.maps }
        ensures four { length self.now.maps ≡ 4 }
        ensures usable { self.now.verdict ≡ Usable → IsTrue self.now.xor
            → IsTrue (are_usable_maps self.now.gran (bits_of self.now.ways) self.now.maps) }
    {
        &self.maps
    }

    /// The restriction bits.
    pub fn restrict(&self) -> u16
        ensures { result ≡ self.now.restrict }
    {
        self.restrict
    }

    /// The UIDs of the target bridges, one for each way.
    pub fn targets(&self) -> &[u32]
        ensures value { result.now ≡ self.now.targets }
        ensures each_way { length self.now.targets ≡ self.now.ways }
    {
        self.targets.items()
    }

    /// Whether it can be used, and else the first cause.
    pub fn verdict(&self) -> Verdict
        ensures { result ≡ self.now.verdict }
    {
        self.verdict
    }

    /// Whether it can be used.
    pub fn is_usable(&self) -> bool
        ensures { result ≡ is_usable self.now.verdict }
    {
        matches!(self.verdict, Verdict::Usable)
    }
}
