//! The command `check`.

ghost use Rattle.std.specs.Prelude.{◌≡◌, ℕ, ◌<◌, ◌≤◌, ◌⊎◌, ⊤, List, All, length, IfOk, IfErr, OnOk, OnErr};
ghost use Rattle.cxl_table.specs.CedtFields.{CedtFields};
ghost use Rattle.cxl_inputs.specs.Ends.{Ends};
ghost use Rattle.cxl_inputs.specs.Host.{host_of};
ghost use Rattle.cxl_inputs.specs.Stop.{IsStop};
ghost use Rattle.cxl_io.specs.Sink.{Takes};
ghost use Rattle.cxl_model.specs.Accepted.{IsAccepted, HasFirstBreach};
ghost use Rattle.cxl_model.specs.Listed.{AreRegionsByBase};
ghost use Rattle.cxl_model.specs.System.{IsSystem, system_of};
ghost use Rattle.cxl_regs.specs.Registers.{Registers};
ghost use Rattle.cxl_reply.specs.Conditions.{IsToldFound};
ghost use Rattle.cxl_topo.specs.Tree.{Tree};
ghost use Rattle.cxl_commands.specs.Stopped.{IsBehind, IsStopped};
ghost use Rattle.cxl_commands.specs.Form.{Check};
ghost use Rattle.cxl_commands.specs.Outside.{outside};
ghost use Rattle.cxl_commands.specs.Readings.{ByHost, AreKnown};
ghost use Rattle.cxl_commands.specs.RunByFiles.{IsRunByFiles, EachRunByFiles};
ghost use Rattle.cxl_commands.specs.commands.Check.{IsRegionsText, IsBreachText, TakesRegions, accepted, broken};
ghost use Rattle.cxl_commands.specs.inner.Reports.{TellsBreach, IsReported};

use crate::commands::BLOCK;
use cxl_cedt::one_reading;
use cxl_check::{Breach, CheckFault, Found};
use cxl_image::one_image_reading;
use cxl_inputs::{Outcome, OwnedHost, Status, Stop, fetch_host, finish};
use cxl_io::{Fetch, Lines, Memory, Sink, writes_join};
use cxl_model::accepted_or_breach;
use cxl_reply::findings_are_told;
use cxl_text::{put_breach, put_found};
use cxl_topo::Topo;
use cxl_topofile::one_topology_reading;
use std::alloc::Global;

/// Writes the regions of an image over a topology, by a table, or its first breach. The lines of regions go
/// out in blocks.
pub fn check<F: Fetch, K: Sink>(
    alloc: Global,
    cedt: &str,
    topo: &str,
    image: &str,
    files: &mut F,
    out: &mut K,
) -> Status
    ensures run { IsRunByFiles (Check cedt.now topo.now image.now) (outside (F.state files.old) (K.state out.old))
        (outside (F.state files.new) (K.state out.new)) result }
    ensures files { (F.state files.old).faults ≤ (F.state files.new).faults }
    ensures sink { (K.state out.old).faults ≤ (K.state out.new).faults }
    ensures told { (F.state files.new).told ≡ (F.state files.old).told }
{
    match fetch_host(alloc, cedt, topo, image, files) {
        Ok(host) => report(alloc, &host, out),
        Err(stop) => finish(Err(stop), out),
    }
}

/// Writes what a check of the host comes to.
fn report<K: Sink>(alloc: Global, host: &OwnedHost, out: &mut K) -> Status
    requires { IsSystem (system_of host.now.image host.now.topo host.now.windows.items) }
    ensures reports { IsReported (system_of host.now.image host.now.topo host.now.windows.items)
        result (K.state out.old) (K.state out.new) }
    ensures counts { (K.state out.old).faults ≤ (K.state out.new).faults }
{
    match checked(alloc, host) {
        Ok(regions) => match write_regions(alloc, &regions, &host.topo, out) {
            Ok(status) => status,
            Err(Memory) => Status::Memory,
        },
        Err(stop) => finish(Err(stop), out),
    }
}

/// The regions of the host's image by rising base; it stops at its first breach. Takes memory.
pub fn checked(alloc: Global, host: &OwnedHost) -> Result<Vec<Found>, Stop>
    requires { IsSystem (system_of host.now.image host.now.topo host.now.windows.items) }
    ensures accepted { OnOk result (IsAccepted (system_of host.now.image host.now.topo host.now.windows.items)) }
    ensures regions { IfOk result (λ regions.
        AreRegionsByBase (system_of host.now.image host.now.topo host.now.windows.items) regions.items) }
    ensures told { IfOk result (λ regions. All (IsToldFound host.now.topo.nodes) regions.items) }
    ensures breach { IfErr result (IsStop (TellsBreach
        (system_of host.now.image host.now.topo host.now.windows.items)) ⊤) }
{
    findings_are_told();
    match cxl_check::check(alloc, &host.image, &host.topo, &host.windows) {
        Ok(regions) => Ok(regions),
        Err(CheckFault::Breach(breach)) => {
            let broken = broken(alloc, breach, &host.topo)?;
            Err(Stop::Outcome(broken))
        }
        Err(CheckFault::Memory) => Err(Stop::Memory),
    }
}

/// The rule that is broken first, with the node and the decoder that break it.
fn broken(alloc: Global, breach: Breach, topo: &Topo) -> Result<Outcome, Memory>
    requires { breach.node < length topo.now.nodes }
    ensures { IfOk result
        (λ outcome. outcome ≡ broken topo.now.nodes breach.rule breach.node breach.decoder) }
{
    let mut text = Vec::new(alloc);
    put_breach(&mut text, breach.rule, breach.node, breach.decoder, topo)?;
    Ok(Outcome::made(Status::Refused, text))
}

/// Writes the lines of regions.
fn write_regions<K: Sink>(
    alloc: Global,
    regions: &[Found],
    topo: &Topo,
    out: &mut K,
) -> Result<Status, Memory>
    requires { All (IsToldFound topo.now.nodes) regions.now }
    ensures ends { IfOk result (λ status.
        Ends (accepted topo.now.nodes regions.now) status (K.state out.old) (K.state out.new)) }
    ensures behind { OnErr result
        (IsBehind (accepted topo.now.nodes regions.now) (K.state out.old) (K.state out.new)) }
    ensures counts { (K.state out.old).faults ≤ (K.state out.new).faults }
{
    writes_join();
    let mut lines: Lines<BLOCK> = Lines::new(alloc);
    for region in regions {
        put_found(&mut lines.block, region, topo)?;
        if lines.line_done(out).is_err() {
            return Ok(Status::WriteFault);
        }
    }
    if lines.end(out).is_err() {
        return Ok(Status::WriteFault);
    }
    Ok(Status::Done)
}

/// Laws of each run of `check`.
pub fn check_statuses()
    // With status 0 it writes exactly the lines of the regions, by rising base, of an image that is accepted:
    // that of its file over the topology of its file, with the table's windows.
    ensures accepted { EachRunByFiles (λ form old new status. (cedt topo image : List ℕ)
        → form ≡ Check cedt topo image → status ≡ Status.Done
        → (text : List ℕ) × IsRegionsText old.files.told cedt topo image text × Takes old.out new.out text) }
    // With status 8 it writes exactly the line of that image's first breach.
    ensures broken { EachRunByFiles (λ form old new status. (cedt topo image : List ℕ)
        → form ≡ Check cedt topo image → status ≡ Status.Refused
        → (text : List ℕ) × IsBreachText old.files.told cedt topo image text × Takes old.out new.out text) }

    // Where the files are known and have a reading, status 0 comes exactly where the image is accepted, and
    // status 8 exactly where it has a breach, unless the run stops before.
    ensures only_accepted { EachRunByFiles (λ form old new status. (cedt topo image : List ℕ)
        (table : CedtFields) (tree : Tree) (blocks : List Registers) → form ≡ Check cedt topo image
        → AreKnown form old.files.told (ByHost table tree blocks) → IsAccepted (host_of table tree blocks)
        → (status ≡ Status.Done) ⊎ IsStopped status old new) }
    ensures only_broken { EachRunByFiles (λ form old new status. (cedt topo image : List ℕ)
        (table : CedtFields) (tree : Tree) (blocks : List Registers) → form ≡ Check cedt topo image
        → AreKnown form old.files.told (ByHost table tree blocks) → HasFirstBreach (host_of table tree blocks)
        → (status ≡ Status.Refused) ⊎ IsStopped status old new) }

    // Where memory ran out, nothing is written, or whole lines of an accepted image's first regions.
    ensures memory { EachRunByFiles (λ form old new status. (cedt topo image : List ℕ)
        → form ≡ Check cedt topo image → status ≡ Status.Memory
        → (new.out.taken ≡ old.out.taken) ⊎ TakesRegions old.files.told cedt topo image old.out new.out) }
{
    one_reading();
    one_topology_reading();
    one_image_reading();
    accepted_or_breach();
}
