//! The spans that endpoints give to a request.

ghost use Rattle.std.specs.Prelude.{◌≡◌, ℕ, ◌<◌, ◌≤◌, ◌↔◌, true, length, Contains, Result, Ok, Err, IfSome, IfNone};
ghost use Rattle.cxl_enc.specs.Limits.{address_limit};
ghost use Rattle.cxl_topo.specs.Tree.{is_endpoint_at};
ghost use Rattle.cxl_span.specs.declared.allotting.Span.{Span};
ghost use Rattle.cxl_span.specs.declared.allotting.SpanFault.{SpanFault};
ghost use Rattle.cxl_span.specs.Allotting.{Allots};
ghost use Rattle.cxl_model.specs.Hosts.{as_system};
ghost use Rattle.cxl_model.specs.System.{decoders_at, ram_at, pmem_at};
ghost use Rattle.cxl_legal.specs.Endpoints.{share_of, HasRoom};
ghost use Rattle.cxl_plan.specs.Faults.{IsRefusedSpan};
ghost use Rattle.cxl_plan.specs.inner.Uses.{AreUses};
ghost use Rattle.cxl_plan.specs.inner.Judging.{AsksOrderlySystem, HasLowShare};

use crate::used::Uses;
use cxl_model::{Host, Request, SpanFault};
use cxl_span::{Span, allot};
use cxl_topo::capacity_at;

/// The span that an endpoint gives for its share of the request, or why it gives none.
pub(crate) fn span_of(host: &Host, request: &Request, endpoint: u32) -> Result<Span, SpanFault>
    requires ready { AsksOrderlySystem (as_system host.now) request.now }
    requires sound { HasLowShare request.now }
    requires endpoint { is_endpoint_at host.now.topo.now.nodes endpoint ≡ true }
    ensures { (answer : Result Span SpanFault) → (result ≡ answer)
        ↔ Allots (decoders_at (as_system host.now) endpoint) (ram_at (as_system host.now) endpoint)
        (pmem_at (as_system host.now) endpoint) request.now.kind (share_of request.now) answer }
{
    let capacity = capacity_at(host.topo, endpoint);
    let share = share_of(request);
    allot(
        host.image.block(endpoint),
        capacity.ram,
        capacity.pmem,
        request.kind,
        share,
    )
}

/// The bytes of each endpoint.
fn share_of(request: &Request) -> u64
    requires { HasLowShare request.now }
    ensures value { result ≡ share_of request.now }
    ensures low { result ≤ address_limit }
{
    request.size / request.endpoints.items().len() as u64
}

/// The least endpoint that gives no span, and why.
pub(crate) fn first_refused(host: &Host, request: &Request, uses: &Uses) -> Option<(u32, SpanFault)>
    requires ready { AsksOrderlySystem (as_system host.now) request.now }
    requires sound { HasLowShare request.now }
    requires uses { AreUses host.now.topo.now.nodes request.now uses.now }
    ensures refused { IfSome result (λ r. IsRefusedSpan (as_system host.now) request.now r.0 r.1) }
    ensures none { IfNone result ((m : ℕ) → Contains request.now.endpoints m
        → HasRoom (as_system host.now) request.now m) }
{
    for node in &uses.nodes {
        if let Some(fault) = refusal(host, request, *node) {
            return Some((*node, fault));
        }
    }
    None
}

/// Why a node that is an endpoint gives no span.
fn refusal(host: &Host, request: &Request, node: u32) -> Option<SpanFault>
    requires ready { AsksOrderlySystem (as_system host.now) request.now }
    requires sound { HasLowShare request.now }
    requires here { node < length host.now.topo.now.nodes }
    ensures endpoint { IfSome result (λ _. is_endpoint_at host.now.topo.now.nodes node ≡ true) }
    ensures refused { IfSome result (λ fault. Allots (decoders_at (as_system host.now) node)
        (ram_at (as_system host.now) node) (pmem_at (as_system host.now) node)
        request.now.kind (share_of request.now) (Err fault)) }
    ensures none { IfNone result (is_endpoint_at host.now.topo.now.nodes node ≡ true
        → HasRoom (as_system host.now) request.now node) }
{
    if !host.topo.is_endpoint(node) {
        return None;
    }
    match span_of(host, request, node) {
        Ok(_) => None,
        Err(fault) => Some(fault),
    }
}
