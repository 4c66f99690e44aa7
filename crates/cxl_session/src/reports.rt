//! What a device's poison list touches of the live regions.

ghost use Rattle.std.specs.Prelude.{◌≡◌, List, All, IfOk};
ghost use Rattle.std.specs.List.{AllZip};
ghost use Rattle.cxl_model.specs.declared.poison.Poisoned.{Poisoned};
ghost use Rattle.cxl_poison.specs.Live.{AreLive};
ghost use Rattle.cxl_poison.specs.Pieces.{ArePoisonedPieces, AreTouchedPlaces};
ghost use Rattle.cxl_script.specs.declared.command.Command.TheVariants as commands;
ghost use Rattle.cxl_machine.specs.Machine.{Machine};
ghost use Rattle.cxl_machine.specs.Sound.{IsMachine};
ghost use Rattle.cxl_machine.specs.Replies.{stays};
ghost use Rattle.cxl_machine.specs.Reports.{AnswersPoison, TouchesLive, poison_reply};
ghost use Rattle.cxl_session.specs.Outright.{OwesRefusal};
ghost use Rattle.cxl_session.specs.Standing.{StandsFor};

use crate::session::Session;
use cxl_enc::{FixedList, Memory, Name};
use cxl_model::{Entry, Found, PoisonList, Poisoned};
use cxl_poison::{PoisonFault, pieces_at, read_list};
use cxl_reply::{Counted, Reply, Report};
use cxl_script::Poison;
use cxl_window::Window;
use std::alloc::Global;

impl Session {
    /// What the records of an endpoint's poison list touch. Takes memory.
    pub(crate) fn poison(&self, alloc: Global, poison: &Poison) -> Result<Reply, Memory>
        requires { (m : Machine) × StandsFor self.now m × IsMachine m }
        ensures tells { IfOk result (λ reply. (m : Machine) → StandsFor self.now m → IsMachine m
            → AnswersPoison m poison.now (stays m reply)) }
        ensures outright { OwesRefusal self.now (commands.Poison poison.now) result }
    {
        let Some(endpoint) = self.topo.endpoint(&poison.endpoint) else {
            return Ok(Reply::NoEndpoint(poison.endpoint));
        };
        match read_list(alloc, poison.bytes.items()) {
            Ok(list) => self.report(alloc, endpoint, list),
            Err(PoisonFault::Short) => Ok(Reply::PoisonShort),
            Err(PoisonFault::Count(said)) => Ok(Reply::PoisonCount(Counted {
                said: said.said,
                room: said.room,
            })),
            Err(PoisonFault::Memory) => Err(Memory),
        }
    }

    /// A poison list with what each of its records touches.
    fn report(&self, alloc: Global, endpoint: u32, list: PoisonList) -> Result<Reply, Memory>
        requires { (m : Machine) × StandsFor self.now m × IsMachine m }
        ensures { IfOk result (λ reply. (m : Machine) → StandsFor self.now m → IsMachine m
            → (pieces : List Poisoned) × AllZip (TouchesLive m endpoint) list.records pieces
            × (reply ≡ poison_reply m endpoint list pieces)) }
    {
        let records = list.records.items();
        let places = self.places_named(alloc, endpoint, records)?;
        let pieces = touched_by_records(
            alloc,
            records,
            endpoint,
            self.live(),
            &places,
            self.windows(),
        )?;
        let names = copied_names(alloc, &self.names)?;
        Ok(Reply::Poison(Report {
            endpoint,
            list,
            pieces,
            names,
        }))
    }
}

/// What each of the records touches of the live regions, which are at these places among all. Takes memory.
fn touched_by_records(
    alloc: Global,
    records: &[Entry],
    endpoint: u32,
    live: &[Found],
    places: &[u32],
    windows: &[Window],
) -> Result<FixedList<Poisoned>, Memory>
    requires live { AreLive windows.now live.now }
    requires places { All (λ entry. AreTouchedPlaces entry endpoint live.now places.now) records.now }
    ensures { IfOk result (AllZip (λ entry poisoned. ArePoisonedPieces entry endpoint live.now windows.now poisoned) records.now) }
{
    let mut all = Vec::with_capacity(alloc, records.len())?;
    for record in records {
        let told = pieces_at(alloc, record, endpoint, live, places, windows)?;
        all.push_reserved(told);
    }
    Ok(FixedList::new(all))
}

/// Takes memory.
fn copied_names(alloc: Global, names: &[Name]) -> Result<FixedList<Name>, Memory>
    ensures { IfOk result (λ copy. copy ≡ names.now) }
{
    let copy = Vec::from_slice(alloc, names)?;
    Ok(FixedList::new(copy))
}
