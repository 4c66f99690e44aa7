//! What is looked up for many decoders: children, landings, the first endpoint of each range, and what is worked out of each
//! decoder.

ghost use Rattle.std.specs.Prelude.{IfOk};
ghost use Rattle.cxl_model.specs.Accepted.{IsOrderlySystem};
ghost use Rattle.cxl_model.specs.Hosts.{as_system};
ghost use Rattle.cxl_check.specs.inner.Facts.{AreSystemTables};

use crate::children::all_children;
use crate::decoder_facts::{DecoderFacts, all_decoder_facts};
use crate::firsts::{RangeKey, first_endpoints};
use crate::landings::landings_of_bridges;
use cxl_model::Host;
use std::alloc::{AllocError, Global};
use std::collections::BTreeMap;

/// What is looked up for many decoders, made once for an image.
#[derive(Drop)]
pub struct Tables {
    /// The child of each node at each of its first eight ports, node by node.
    pub children: Vec<Option<u32>>,
    /// Whether a node is the landing of a bridge.
    pub landings: Vec<bool>,
    /// The first endpoint of each committed range that has one.
    pub firsts: BTreeMap<RangeKey, u32>,
    /// What is worked out of each committed decoder, ten places a node.
    pub decoders: Vec<DecoderFacts>,
}

/// The tables of an image. Takes memory.
pub(crate) fn tables_of(alloc: Global, host: &Host) -> Result<Tables, AllocError>
    requires { IsOrderlySystem (as_system host.now) }
    ensures { IfOk result (AreSystemTables (as_system host.now)) }
{
    let children = all_children(alloc, host.topo)?;
    let landings = landings_of_bridges(alloc, host.topo)?;
    let firsts = first_endpoints(alloc, host)?;
    let decoders = all_decoder_facts(alloc, host)?;
    Ok(Tables {
        children,
        landings,
        firsts,
        decoders,
    })
}
