//! All places that break the first broken rule of an image.

ghost use Rattle.std.specs.Prelude.{◌≡◌, ◌≤◌, ◌<◌, ◌++◌, All, OnOk, IfOk, length};
ghost use Rattle.std.specs.List.{flat_map};
ghost use Rattle.cxl_image.specs.Images.{HasCapsOf};
ghost use Rattle.cxl_inputs.specs.Host.{host_of};
ghost use Rattle.cxl_model.specs.System.{IsSystem, system_of};
ghost use Rattle.cxl_reads.specs.Answers.{ComesTo, IsAnswered};
ghost use Rattle.cxl_reads.specs.Breaches.{breach_line, verdict, TellsBreaches, AreBreaches};

use crate::answers::{IMAGE, TABLE, TOPOLOGY};
use cxl_check::Breach;
use cxl_enc::Memory;
use cxl_image::Image;
use cxl_inputs::{
    Outcome, OwnedHost, Status, Stop, finish, given_image, given_table, given_topology,
};
use cxl_io::Sink;
use cxl_reply::findings_are_told;
use cxl_table::Cedt;
use cxl_text::put_breach;
use cxl_topo::Topo;
use std::alloc::Global;

/// Writes all places that break the rule which the image breaks first, a line each as `check` tells the first of them, with its
/// status; and nothing, with status 0, where the image is accepted. A file that has a fault is told as the program tells it. Where
/// memory runs out, nothing is written.
pub fn breaches<K: Sink>(
    alloc: Global,
    cedt: &[u8],
    topo: &[u8],
    image: &[u8],
    out: &mut K,
) -> Status
    ensures answer { IsAnswered (AreBreaches cedt.now topo.now image.now) result (K.state out.old) (K.state out.new) }
    ensures counts { (K.state out.old).faults ≤ (K.state out.new).faults }
{
    finish(breaches_told(alloc, cedt, topo, image), out)
}

/// What telling them comes to.
fn breaches_told(alloc: Global, cedt: &[u8], topo: &[u8], image: &[u8]) -> Result<Outcome, Stop>
    ensures { ComesTo (AreBreaches cedt.now topo.now image.now) result }
{
    let table = given_table(alloc, TABLE, cedt)?;
    let topo = given_topology(alloc, TOPOLOGY, topo)?;
    let image = given_image(alloc, IMAGE, image, &topo)?;
    let told = told_over(alloc, &table, topo, image)?;
    Ok(told)
}

/// The places of the image of a host over a table, as lines.
fn told_over(alloc: Global, table: &Cedt, topo: Topo, image: Image) -> Result<Outcome, Memory>
    requires { HasCapsOf image topo.nodes }
    ensures { IfOk result (TellsBreaches (host_of table.now topo image)) }
{
    let host = OwnedHost::of(alloc, table, topo, image)?;
    told_of(alloc, &host)
}

/// The places of a host's image, as lines.
fn told_of(alloc: Global, host: &OwnedHost) -> Result<Outcome, Memory>
    requires { IsSystem (system_of host.now.image host.now.topo host.now.windows.items) }
    ensures { IfOk result (TellsBreaches (system_of host.now.image host.now.topo host.now.windows.items)) }
{
    findings_are_told();
    let found = cxl_check::breaches(alloc, &host.image, &host.topo, &host.windows)?;
    let mut text = Vec::new(alloc);
    put_breaches(&mut text, &found, &host.topo)?;
    Ok(Outcome::made(verdict(&found), text))
}

/// The status of a check that finds these breaches.
fn verdict(found: &[Breach]) -> Status
    ensures { result ≡ verdict found.now }
{
    match found {
        [] => Status::Done,
        _ => Status::Refused,
    }
}

/// Appends a line for each breach.
fn put_breaches(out: &mut Vec<u8>, found: &[Breach], topo: &Topo) -> Result<(), Memory>
    requires { All (λ b. b.node < length topo.now.nodes) found.now }
    ensures { OnOk result (out.new.items ≡ out.old.items ++ flat_map (breach_line topo.now.nodes) found.now) }
{
    for b in found {
        put_breach(out, b.rule, b.node, b.decoder, topo)?;
    }
    Ok(())
}
