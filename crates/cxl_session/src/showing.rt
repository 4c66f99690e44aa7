//! A live region with its registers, as the bus has them.

ghost use Rattle.std.specs.Prelude.{◌≡◌, ◌≤◌, [], ◌∷◌, length, map, All, IfOk, OnOk, OnErr};
ghost use Rattle.std.specs.Vec.{vec_capacity};
ghost use Rattle.cxl_bus.specs.Failed.{HasFailed};
ghost use Rattle.cxl_bus.specs.RegsState.{IsUntouched};
ghost use Rattle.cxl_media.specs.MediaState.{MediaState};
ghost use Rattle.cxl_script.specs.declared.command.Command.TheVariants as commands;
ghost use Rattle.cxl_machine.specs.Reports.{shown_row};
ghost use Rattle.cxl_session.specs.Standing.{Stands};
ghost use Rattle.cxl_session.specs.Outright.{OwesRefusal};
ghost use Rattle.cxl_session.specs.inner.Answering.{IsTurnFor};
ghost use Rattle.cxl_session.specs.inner.Rows.{IsRowOf};

use crate::rows::region_rows;
use crate::session::Session;
use cxl_bus::Regs;
use cxl_enc::{Failed, FixedList, Memory, Name};
use cxl_machine::live_regions_stay;
use cxl_model::{Found, Row};
use cxl_regs::offset_of;
use cxl_reply::{Reply, Shown, ShownRow};
use cxl_walk::kept_routes_stay;
use std::alloc::Global;

impl Session {
    /// A live region with its registers, which are read on the bus. Takes memory, all of it before the first read.
    pub(crate) fn show<R: Regs>(
        &self,
        alloc: Global,
        name: Name,
        regs: &mut R,
    ) -> Result<Reply, Memory>
        requires { (media : MediaState) × Stands self.now (R.state regs.old) media }
        ensures turn { IfOk result (λ reply. (media : MediaState)
            → IsTurnFor self.now self.now (R.state regs.old) (R.state regs.new) media media (commands.Show name) reply) }
        ensures outright { OwesRefusal self.now (commands.Show name) result }
        ensures untouched { IsUntouched (R.state regs.old) (R.state regs.new) }
        ensures memory { OnErr result (R.state regs.new ≡ R.state regs.old) }
        ensures counts { (R.state regs.old).faults ≤ (R.state regs.new).faults }
    {
        live_regions_stay();
        kept_routes_stay();
        let Some(place) = self.place_of_name(&name) else {
            return Ok(Reply::NoRegion(name));
        };
        let found = copied_found(alloc, self.found_at(place))?;
        let rows = region_rows(alloc, &self.image, self.kept_at(place).own())?;
        let room = Vec::with_capacity(alloc, rows.len())?;
        match read_rows(&rows, regs, room) {
            Ok(rows) => Ok(Reply::Shown(Shown { name, found, rows })),
            Err(Failed) => Ok(Reply::BusRead),
        }
    }
}

/// The same region. Takes memory.
fn copied_found(alloc: Global, found: &Found) -> Result<Found, Memory>
    ensures { IfOk result (λ copy. copy ≡ found.now) }
{
    let spans = Vec::from_slice(alloc, found.spans.items())?;
    Ok(Found {
        base: found.base,
        size: found.size,
        window: found.window,
        gran: found.gran,
        ways: found.ways,
        kind: found.kind,
        spans: FixedList::new(spans),
    })
}

/// The words of each row's decoder, in a vector with room for them.
fn read_rows<R: Regs>(
    rows: &[Row],
    regs: &mut R,
    mut shown: Vec<ShownRow>,
) -> Result<FixedList<ShownRow>, Failed>
    requires there { All (IsRowOf (R.state regs.old).blocks) rows.now }
    requires empty { shown.items ≡ [] }
    requires room { length rows.now ≤ vec_capacity shown }
    ensures shown { IfOk result (λ shown. shown ≡ map shown_row rows.now) }
    ensures same { IsUntouched (R.state regs.old) (R.state regs.new) }
    // At a fault one call failed, and none behind it; else none did.
    ensures failed { OnErr result (HasFailed (R.state regs.old) (R.state regs.new) (0 ∷ [])) }
    ensures unfailed { OnOk result (HasFailed (R.state regs.old) (R.state regs.new) []) }
    ensures counts { (R.state regs.old).faults ≤ (R.state regs.new).faults }
{
    for row in rows {
        let words = read_row(row, regs)?;
        shown.push_reserved(words);
    }
    Ok(FixedList::new(shown))
}

/// The words of a row's decoder from base low to tail high.
fn read_row<R: Regs>(row: &Row, regs: &mut R) -> Result<ShownRow, Failed>
    requires { IsRowOf (R.state regs.old).blocks row.now }
    ensures shown { IfOk result (λ shown. shown ≡ shown_row row.now) }
    ensures same { IsUntouched (R.state regs.old) (R.state regs.new) }
    // At a fault one call failed, and none behind it; else none did.
    ensures failed { OnErr result (HasFailed (R.state regs.old) (R.state regs.new) (0 ∷ [])) }
    ensures unfailed { OnOk result (HasFailed (R.state regs.old) (R.state regs.new) []) }
    ensures counts { (R.state regs.old).faults ≤ (R.state regs.new).faults }
{
    let mut words = [0; 7];
    for place in 0..7 {
        words[place as usize] = regs.read32(row.node, offset_of(row.index, place))?;
    }
    Ok(ShownRow {
        node: row.node,
        decoder: row.index,
        words,
    })
}
