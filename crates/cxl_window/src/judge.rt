//! The judge of a table's windows: what each record is judged against.

ghost use Rattle.std.specs.Prelude.{◌≡◌, ◌≤◌, length, IfOk, OnOk, find, unwrap_or, [], ◌++◌};
ghost use Rattle.std.specs.Option.{option_copied};
ghost use Rattle.cxl_window.specs.Fields.{IsWindow};
ghost use Rattle.cxl_window.specs.Judging.{is_no_bridge, bridges_in};
ghost use Rattle.cxl_window.specs.Windows.{topology_has, lacks_maps, maps_of};

use crate::cfmws::{
    cfmws_ways, first_overlapped, first_repeat, is_aligned, is_too_high, is_uneven,
};
use crate::padding::padded_maps;
use crate::window::{Verdict, Window};
use cxl_enc::{Memory, split};
use cxl_num::are_usable_maps;
use cxl_table::{Cfmws, Chbs, Cxims, Record};
use std::alloc::Global;

/// The records of windows, and what they are judged against.
#[derive(Drop)]
pub(crate) struct Judge<'a> {
    /// The UIDs of the bridges that can be targets.
    bridges: Vec<u32>,
    /// The tables of XOR maps, in table order.
    tables: Vec<&'a Cxims>,
    /// The records of windows, in table order.
    pub(crate) windows: Vec<&'a Cfmws>,
}

impl<'a> Judge<'a> {
    ghost use Rattle.std.specs.List.{cons_option};
    ghost use Rattle.cxl_window.specs.Windows.{cfmws_in, cxims_in};
    ghost use Rattle.cxl_window.specs.Judging.{IsJudgeOf, tables_behind, windows_behind, maps_known, verdict_by, window_by};

    /// The bridges, the XOR maps and the windows of a table, from one walk over its records, of which most may be of other
    /// types. `uids` are the bridges of the topology, where there is one.
    pub(crate) fn new(
        alloc: Global,
        records: &'a [Record],
        uids: Option<&[u32]>,
    ) -> Result<Judge<'a>, Memory>
        ensures { IfOk result (λ judge. IsJudgeOf judge records.now (option_copied uids.entry)) }
    {
        let mut judge = Judge {
            bridges: Vec::new(alloc),
            tables: Vec::new(alloc),
            windows: Vec::new(alloc),
        };
        for record in records {
            judge.add(record, uids)?;
        }
        Ok(judge)
    }

    /// Adds what the next record of the table is.
    fn add(&mut self, item: &'a Record, uids: Option<&[u32]>) -> Result<(), Memory>
        ensures bridges { OnOk result (self.new.bridges.items
            ≡ self.old.bridges.items ++ bridges_in (option_copied uids.entry) item.now) }
        ensures tables { OnOk result (tables_behind self.new.tables.items
            ≡ tables_behind self.old.tables.items ++ cons_option (cxims_in item.now) []) }
        ensures windows { OnOk result (windows_behind self.new.windows.items
            ≡ windows_behind self.old.windows.items ++ cons_option (cfmws_in item.now) []) }
    {
        match item {
            // Most of them, in a large table.
            Record::Other(_) => Ok(()),
            Record::Chbs(chbs) => add_bridge(&mut self.bridges, chbs, uids),
            Record::Cfmws(cfmws) => Ok(self.windows.push(cfmws)?),
            Record::Cxims(cxims) => Ok(self.tables.push(cxims)?),
        }
    }

    /// The window of a record behind those before it in the table.
    pub(crate) fn window(
        &self,
        alloc: Global,
        before: &[Window],
        cfmws: &Cfmws,
    ) -> Result<Window, Memory>
        requires few { length before.now ≤ 64 }
        ensures value { IfOk result (λ w. w ≡ window_by self.now before.now cfmws.now) }
        ensures window { IfOk result IsWindow }
    {
        let verdict = self.verdict(before, cfmws);
        let maps = self.used_maps(cfmws);
        Window::new(alloc, before.len() as u32, cfmws, maps, verdict)
    }

    /// The first verdict that holds of a window behind those before it in the table.
    fn verdict(&self, before: &[Window], cfmws: &Cfmws) -> Verdict
        requires few { length before.now ≤ 64 }
        ensures { result ≡ verdict_by self.now before.now cfmws.now }
    {
        if !is_aligned(cfmws) {
            return Verdict::Align;
        }
        if is_uneven(cfmws) {
            return Verdict::Size;
        }
        if is_too_high(cfmws) {
            return Verdict::TooHigh;
        }
        if let Some(index) = first_overlapped(before, cfmws) {
            return Verdict::Overlap(index as u32);
        }
        if let Some(uid) = self.first_missing(cfmws.targets()) {
            return Verdict::Target(uid);
        }
        if let Some(uid) = first_repeat(cfmws.targets()) {
            return Verdict::Repeat(uid);
        }
        if self.lacks_maps(cfmws) {
            return Verdict::Maps;
        }
        Verdict::Usable
    }

    /// The first target that is none of the bridges.
    fn first_missing(&self, targets: &[u32]) -> Option<u32>
        ensures { result ≡ find (is_no_bridge self.now.bridges.items) targets.now }
    {
        targets
            .iter()
            .copied()
            .find(|uid| !self.bridges.contains(uid))
    }

    /// Whether the XOR maps that the window needs are missing, too few or not usable.
    fn lacks_maps(&self, cfmws: &Cfmws) -> bool
        ensures { result ≡ lacks_maps (maps_known self.now cfmws.now.gran) cfmws.now }
    {
        let bits = split(cfmws_ways(cfmws)).bits;
        cfmws.xor() && bits > 0 && !are_usable_maps(cfmws.gran(), bits, self.maps_of(cfmws.gran()))
    }

    /// The maps that the window uses, and zeros.
    fn used_maps(&self, cfmws: &Cfmws) -> [u64; 4]
        ensures { result ≡ maps_of (maps_known self.now cfmws.now.gran) cfmws.now }
    {
        if cfmws.xor() {
            let bits = split(cfmws_ways(cfmws)).bits;
            return padded_maps(self.maps_of(cfmws.gran()), bits);
        }
        [0; 4]
    }

    /// The maps of the first table of a granularity code, none where there is no table.
    fn maps_of(&self, gran: u8) -> &[u64]
        ensures { result.now ≡ unwrap_or (maps_known self.now gran) [] }
    {
        for table in &self.tables {
            if table.gran() == gran {
                return table.maps();
            }
        }
        &[]
    }
}

/// Adds the UID of a bridge of CXL 2.0, one of the topology's where there is one.
fn add_bridge(bridges: &mut Vec<u32>, chbs: &Chbs, uids: Option<&[u32]>) -> Result<(), Memory>
    ensures { OnOk result (bridges.new.items
        ≡ bridges.old.items ++ bridges_in (option_copied uids.entry) (Record.Chbs chbs.now)) }
{
    if chbs.version == 1 && topology_has(uids, chbs.uid) {
        bridges.push(chbs.uid)?;
    }
    Ok(())
}

/// Whether the topology has a bridge of this UID, where there is a topology.
fn topology_has(uids: Option<&[u32]>, uid: u32) -> bool
    ensures { result ≡ topology_has (option_copied uids.entry) uid }
{
    uids.is_none_or(|uids| uids.contains(&uid))
}
