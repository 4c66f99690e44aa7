//! The endpoints that a line names.

ghost use Rattle.std.specs.Prelude.{◌≡◌, IfOk};
ghost use Rattle.cxl_request.specs.Endpoints.{first_unknown, endpoints_named};

use cxl_enc::{Memory, Name};
use cxl_topo::Topo;
use std::alloc::Global;

/// The first of these names that no endpoint has.
pub fn first_unknown(topo: &Topo, names: &[Name]) -> Option<Name>
    ensures { result ≡ first_unknown topo.now.nodes names.now }
{
    names
        .iter()
        .copied()
        .find(|name| topo.endpoint(name).is_none())
}

/// The endpoints that have one of these names, in their order. Takes memory.
pub(crate) fn endpoints_named(
    alloc: Global,
    topo: &Topo,
    names: &[Name],
) -> Result<Vec<u32>, Memory>
    ensures endpoints { IfOk result (λ endpoints. endpoints.items ≡ endpoints_named topo.now.nodes names.now) }
{
    let endpoints = names
        .iter()
        .filter_map(|name| topo.endpoint(name))
        .collect(alloc)?;
    Ok(endpoints)
}

/// The first of these names that no endpoint has, beside the endpoints that have one of them: it is sought only where
/// these are fewer.
pub(crate) fn unknown_beside(topo: &Topo, names: &[Name], endpoints: &[u32]) -> Option<Name>
    requires { endpoints.now ≡ endpoints_named topo.now.nodes names.now }
    ensures { result ≡ first_unknown topo.now.nodes names.now }
{
    if endpoints.len() == names.len() {
        return None;
    }
    first_unknown(topo, names)
}
