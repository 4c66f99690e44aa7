//! All places that break the rule which an image breaks first.

ghost use Rattle.std.specs.Prelude.{◌≡◌, ◌+◌, ◌<◌, ℕ, length, false, All, IfOk, OnOk};
ghost use Rattle.cxl_window.specs.Windows.{AreMadeWith};
ghost use Rattle.cxl_image.specs.Images.{HasCapsOf};
ghost use Rattle.cxl_model.specs.Hosts.{as_system};
ghost use Rattle.cxl_model.specs.System.{system_of, bridge_uids};
ghost use Rattle.cxl_model.specs.Accepted.{breaks, breaks_caps, breaks_block, IsOrderlySystem};
ghost use Rattle.cxl_check.specs.Breaches.{AreBreachesOf, AreFirstBreaches};
ghost use Rattle.cxl_check.specs.inner.Facts.{AreSystemTables};
ghost use Rattle.cxl_check.specs.inner.Known.{IsKnown};
ghost use Rattle.cxl_check.specs.inner.Listed.{SpotTest, AreSpotsBefore};

use crate::blocks::blocks_breach;
use crate::caps::caps_breach;
use crate::fault::Breach;
use crate::known::{Known, none_met};
use crate::ranges::{least_broken, ranges_breach};
use crate::tables::{Tables, tables_of};
use cxl_enc::Memory;
use cxl_image::Image;
use cxl_model::{Host, hosts_with_caps_are_systems};
use cxl_span::breaks_at;
use cxl_topo::{Topo, capacity_at};
use cxl_window::Window;
use std::alloc::Global;

/// All places that break the rule which the image breaks first: the first of them is the breach that `check` tells, and there is none
/// exactly where the image is accepted. They rise by node, and in a node by decoder. The image may be of any blocks. (The rules K1
/// to K12 are this project's.) Takes memory.
pub fn breaches(
    alloc: Global,
    image: &Image,
    topo: &Topo,
    windows: &[Window],
) -> Result<Vec<Breach>, Memory>
    requires { AreMadeWith windows.now (bridge_uids topo.now.nodes) }
    ensures { IfOk result (λ found. AreFirstBreaches (system_of image.now topo.now windows.now) found.items) }
{
    hosts_with_caps_are_systems();
    let host = Host {
        image,
        topo,
        windows,
    };
    let _count = topo.count();
    let _blocks = image.count();
    if let Some(_node) = caps_breach(&host) {
        return caps_spots(alloc, &host);
    }
    match blocks_breach(&host) {
        Some(breach) => blocks_spots(alloc, &host, breach.rule),
        None => ranges_spots(alloc, &host),
    }
}

/// All breaches of K1: node 0 where the number of blocks is another, else each node whose block has another capability word.
fn caps_spots(alloc: Global, host: &Host) -> Result<Vec<Breach>, Memory>
    ensures { IfOk result (λ found. AreBreachesOf (as_system host.now) 1 found.items) }
{
    let mut spots = Vec::new(alloc);
    if host.image.count() != host.topo.count() {
        add_spot(&mut spots, true, 1, 0, 0)?;
        return Ok(spots);
    }
    for node in 0..host.topo.count() {
        let other = host.image.block(node).cap() != host.topo.node(node).cap;
        add_spot(&mut spots, other, 1, node, 0)?;
    }
    Ok(spots)
}

/// All breaches of one of the rules K2 to K8.
fn blocks_spots(alloc: Global, host: &Host, rule: u8) -> Result<Vec<Breach>, Memory>
    requires { HasCapsOf host.now.image.now host.now.topo.now.nodes }
    ensures { IfOk result (λ found.
        AreSpotsBefore (breaks_block (as_system host.now) rule) rule (length host.now.topo.now.nodes) 0 found.items) }
{
    let mut spots = Vec::new(alloc);
    for node in 0..host.topo.count() {
        add_block(&mut spots, host, rule, node)?;
    }
    Ok(spots)
}

/// Adds the places of a node that break one of the rules K2 to K8.
fn add_block(spots: &mut Vec<Breach>, host: &Host, rule: u8, node: u32) -> Result<(), Memory>
    requires caps { HasCapsOf host.now.image.now host.now.topo.now.nodes }
    requires here { node < length host.now.topo.now.nodes }
    requires before { AreSpotsBefore (breaks_block (as_system host.now) rule) rule node 0 spots.old.items }
    ensures { OnOk result (AreSpotsBefore (breaks_block (as_system host.now) rule) rule (node + 1) 0 spots.new.items) }
{
    let capacity = capacity_at(host.topo, node);
    let block = host.image.block(node);
    for i in 0..block.count() {
        let broken = breaks_at(block, capacity.ram, capacity.pmem, rule, i);
        add_spot(spots, broken, rule, node, i)?;
    }
    Ok(())
}

/// All breaches of the first broken rule of an image that keeps K1 to K8.
fn ranges_spots(alloc: Global, host: &Host) -> Result<Vec<Breach>, Memory>
    requires { IsOrderlySystem (as_system host.now) }
    ensures { IfOk result (λ found. AreFirstBreaches (as_system host.now) found.items) }
{
    let tables = tables_of(alloc, host)?;
    let mut met = none_met(alloc, host, &tables)?;
    match ranges_breach(&mut met, host, &tables) {
        Some(breach) => rule_spots(alloc, &mut met, host, &tables, breach.rule),
        None => Ok(Vec::new(alloc)),
    }
}

/// All breaches of one of the rules K9 to K12, below which none is broken.
fn rule_spots(
    alloc: Global,
    met: &mut Vec<Known>,
    host: &Host,
    tables: &Tables,
    rule: u8,
) -> Result<Vec<Breach>, Memory>
    requires met { All (IsKnown (as_system host.now)) met.old.items }
    requires ready { IsOrderlySystem (as_system host.now) }
    requires tables { AreSystemTables (as_system host.now) tables.now }
    requires lower { (lower n i : ℕ) → lower < rule → breaks (as_system host.now) lower n i ≡ false }
    ensures { IfOk result (λ found. AreSpotsBefore (breaks (as_system host.now) rule) rule
        (length host.now.topo.now.nodes) 0 found.items) }
{
    let mut spots = Vec::new(alloc);
    for node in 0..host.topo.count() {
        add_node(&mut spots, met, host, tables, rule, node)?;
    }
    Ok(spots)
}

/// Adds the places of a node that break one of the rules K9 to K12, below which none is broken.
fn add_node(
    spots: &mut Vec<Breach>,
    met: &mut Vec<Known>,
    host: &Host,
    tables: &Tables,
    rule: u8,
    node: u32,
) -> Result<(), Memory>
    requires met { All (IsKnown (as_system host.now)) met.old.items }
    requires ready { IsOrderlySystem (as_system host.now) }
    requires tables { AreSystemTables (as_system host.now) tables.now }
    requires lower { (lower n i : ℕ) → lower < rule → breaks (as_system host.now) lower n i ≡ false }
    requires here { node < length host.now.topo.now.nodes }
    requires before { AreSpotsBefore (breaks (as_system host.now) rule) rule node 0 spots.old.items }
    ensures met { All (IsKnown (as_system host.now)) met.new.items }
    ensures spots { OnOk result (AreSpotsBefore (breaks (as_system host.now) rule) rule (node + 1) 0 spots.new.items) }
{
    let block = host.image.block(node);
    for i in 0..block.count() {
        let least = least_broken(met, host, tables, node, i, &block.decoder(i));
        add_spot(spots, least == Some(rule), rule, node, i)?;
    }
    Ok(())
}

/// Adds the place of a decoder, where it breaks the rule.
fn add_spot(
    spots: &mut Vec<Breach>,
    broken: bool,
    rule: u8,
    node: u32,
    decoder: u8,
) -> Result<(), Memory>
    ensures { OnOk result ((test : SpotTest) → broken ≡ test node decoder → AreSpotsBefore test rule node decoder spots.old.items
        → AreSpotsBefore test rule node (decoder + 1) spots.new.items) }
{
    if !broken {
        return Ok(());
    }
    spots.push(Breach {
        rule,
        node,
        decoder,
    })?;
    Ok(())
}
