//! The rows of a plan.

ghost use Rattle.std.specs.Prelude.{◌≡◌, ◌<◌, ◌≤◌, ◌^◌, true, length, IfOk};
ghost use Rattle.cxl_model.specs.Hosts.{as_system};
ghost use Rattle.cxl_legal.specs.Used.{is_used};
ghost use Rattle.cxl_plan.specs.inner.Uses.{tree_alone};
ghost use Rattle.cxl_legal.specs.Stated.{targets_word};
ghost use Rattle.cxl_plan.specs.inner.Stages.{AreStages};
ghost use Rattle.cxl_plan.specs.inner.Judging.{IsTakenBy};
ghost use Rattle.cxl_plan.specs.inner.Planned.{tail_at, row_at, rows_at};

use crate::room::span_of;
use crate::stages::{Stage, planned_code};
use crate::used::{Uses, ports_of};
use crate::ways::planned_ways;
use cxl_enc::code_of;
use cxl_model::{Host, Request, Row};
use cxl_regs::Decoder;
use cxl_window::Window;
use std::alloc::{AllocError, Global};

/// One row for each used node that does not forward, in rising order. Takes memory.
pub(crate) fn rows(
    alloc: Global,
    host: &Host,
    request: &Request,
    uses: &Uses,
    stages: &[Stage],
    w: &Window,
    base: u64,
) -> Result<Vec<Row>, AllocError>
    requires settled { IsTakenBy (as_system host.now) request.now uses.now w.now }
    requires stages { AreStages host.now.topo.now.nodes request.now uses.now.nodes.items stages.now }
    ensures { IfOk result (λ rows. rows.items ≡ rows_at host.now.topo.now.nodes host.now.image.now request.now w.now base) }
{
    let mut rows = Vec::with_capacity(alloc, uses.nodes.len())?;
    for node in &uses.nodes {
        if !host.topo.forwards(*node) {
            rows.push(row(host, request, uses, stages, w, base, *node))?;
        }
    }
    Ok(rows)
}

/// The row of one node: its first decoder that is not committed.
fn row(
    host: &Host,
    request: &Request,
    uses: &Uses,
    stages: &[Stage],
    w: &Window,
    base: u64,
    node: u32,
) -> Row
    requires settled { IsTakenBy (as_system host.now) request.now uses.now w.now }
    requires stages { AreStages host.now.topo.now.nodes request.now uses.now.nodes.items stages.now }
    requires here { node < length host.now.topo.now.nodes }
    requires used { is_used (tree_alone host.now.topo.now.nodes) request.now node ≡ true }
    ensures { result ≡ row_at host.now.topo.now.nodes host.now.image.now request.now w.now base node }
{
    let ways = planned_ways(host.topo, request, uses, node);
    Row {
        node,
        index: host.image.block(node).committed(),
        decoder: Decoder {
            base,
            size: request.size,
            ways: code_of(ways).unwrap(),
            gran: planned_code(host.topo, request, uses, stages, w, node) as u8,
            lock: false,
            commit: false,
            committed: false,
            error: false,
            host_only: true,
            tail: tail(host, request, uses, w, node),
        },
    }
}

/// The used ports of a port as its target list, or the bytes that an endpoint skips.
fn tail(host: &Host, request: &Request, uses: &Uses, w: &Window, node: u32) -> u64
    requires settled { IsTakenBy (as_system host.now) request.now uses.now w.now }
    requires here { node < length host.now.topo.now.nodes }
    requires used { is_used (tree_alone host.now.topo.now.nodes) request.now node ≡ true }
    ensures { result ≡ tail_at host.now.topo.now.nodes host.now.image.now request.now node }
{
    if host.topo.is_endpoint(node) {
        span_of(host, request, node).unwrap().skip
    } else {
        targets_word(ports_of(host.topo, request, uses, node))
    }
}

/// A target list, the first port in the lowest byte.
fn targets_word(ports: &[u8]) -> u64
    requires { length ports.now ≤ 8 }
    ensures value { result ≡ targets_word ports.now }
    ensures low { result < 256 ^ length ports.now }
{
    match ports.split_first() {
        Some((first, rest)) => u64::from(*first) + 256 * targets_word(rest),
        None => 0,
    }
}
