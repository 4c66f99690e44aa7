//! What is asked for before a job begins, and why it is refused.

ghost use Rattle.std.specs.Prelude.{◌≡◌, IfOk};
ghost use Rattle.cxl_script.specs.declared.command.Command.TheVariants as commands;
ghost use Rattle.cxl_machine.specs.Machine.{Machine};
ghost use Rattle.cxl_machine.specs.Sound.{IsMachine};
ghost use Rattle.cxl_machine.specs.Requests.{spot_of};
ghost use Rattle.cxl_session.specs.Standing.{StandsFor};
ghost use Rattle.cxl_session.specs.Outright.{OwesRefusal};
ghost use Rattle.cxl_session.specs.inner.Requests.{IsAskedRelease};

use crate::rows::{first_locked, first_not_last, region_rows};
use crate::session::Session;
use cxl_enc::{Memory, Name, place_among};
use cxl_machine::live_regions_stay;
use cxl_model::Row;
use cxl_reply::{Reply, Spot};
use cxl_walk::kept_routes_stay;
use std::alloc::Global;

/// The region that is to be ended: its place among the live ones, and its decoders.
#[derive(Drop)]
pub(crate) struct Release {
    pub(crate) place: usize,
    pub(crate) rows: Vec<Row>,
}

impl Session {
    /// The release of a region by its name, or why it is refused. Takes memory, once nothing stands against it.
    pub(crate) fn asked_release(
        &self,
        alloc: Global,
        name: Name,
    ) -> Result<Result<Release, Reply>, Memory>
        ensures asked { IfOk result (λ asked. (m : Machine) → StandsFor self.now m → IsMachine m
            → IsAskedRelease m name asked) }
        ensures outright { OwesRefusal self.now (commands.Destroy name) result }
    {
        live_regions_stay();
        kept_routes_stay();
        if let Some(pending) = &self.job {
            return Ok(Err(Reply::Busy(pending.name)));
        }
        let Some(place) = place_among(&self.names, &name) else {
            return Ok(Err(Reply::NoRegion(name)));
        };
        let own = self.kept_at(place).own();
        if let Some(row) = first_locked(&self.image, own) {
            return Ok(Err(Reply::Locked(spot(&row))));
        }
        if let Some(row) = first_not_last(&self.image, own) {
            return Ok(Err(Reply::NotLast(spot(&row))));
        }
        let rows = region_rows(alloc, &self.image, own)?;
        Ok(Ok(Release { place, rows }))
    }
}

/// Where a decoder stands.
fn spot(row: &Row) -> Spot
    ensures { result ≡ spot_of row.now }
{
    Spot {
        node: row.node,
        decoder: row.index,
    }
}
