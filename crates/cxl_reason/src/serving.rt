//! Whether nodes give something, for each number of endpoints.

ghost use Rattle.std.specs.Prelude.{◌≡◌, ℕ, ◌/◌, ◌<◌, ◌≤◌, ◌==◌, ◌&&◌, if◌then◌else◌, [], ◌∷◌, true, false, length, find, Some};
ghost use Rattle.cxl_enc.specs.Caps.{is_target_count};
ghost use Rattle.cxl_enc.specs.Codes.{is_ways};
ghost use Rattle.cxl_topo.specs.declared.node.Parent.{Parent};
ghost use Rattle.cxl_topo.specs.Tree.{is_endpoint_at, parent_of};
ghost use Rattle.cxl_model.specs.Hosts.{as_system};
ghost use Rattle.cxl_model.specs.Accepted.{IsOrderlySystem};
ghost use Rattle.cxl_pick.specs.Picking.{can_serve_by, can_serve_itself, gives};
ghost use Rattle.cxl_pick.specs.inner.Wanted.{HasWaysAndSize};
ghost use Rattle.cxl_pick.specs.inner.Gifts.{can_lead, offers_of};
ghost use Rattle.cxl_reason.specs.inner.Gifts.{AreCounts, one_if};

use crate::gifts::{Counts, no_counts, plus, told};
use crate::nodes::{can_lead, can_serve_itself, is_open};
use cxl_model::Host;
use cxl_pick::Want;
use cxl_topo::tree_laws;
use cxl_window::Window;

/// For each number of endpoints, 1 where a node gives something for it from a start. No child of any node stands at a port
/// above `highest`.
pub(crate) fn counts_of(
    host: &Host,
    want: &Want,
    w: &Window,
    start: u64,
    highest: u8,
    node: u32,
) -> Counts
    requires ready { IsOrderlySystem (as_system host.now) }
    requires sound { HasWaysAndSize want.now }
    requires highest { (c : ℕ) (parent : Parent) → parent_of host.now.topo.now.nodes c ≡ Some parent → parent.port ≤ highest }
    requires here { node < length host.now.topo.now.nodes }
    ensures { AreCounts result (λ m. one_if (gives (as_system host.now) want.now w.now start node m)) }
{
    // A child comes after its parent.
    tree_laws();
    let _count = host.topo.count();
    if host.topo.is_endpoint(node) {
        return endpoint_counts(host, want, w, start, node);
    }
    let mut counts = no_counts();
    for port in 0..u32::from(highest) + 1 {
        if let Some(child) = host.topo.child(node, port as u8) {
            let own = counts_of(host, want, w, start, highest, child);
            counts = plus(&counts, &own);
        }
    }
    port_counts(host, want, w, start, &counts, node)
}

/// What an endpoint gives: itself, where it could be one of the region's.
fn endpoint_counts(host: &Host, want: &Want, w: &Window, start: u64, node: u32) -> Counts
    requires ready { IsOrderlySystem (as_system host.now) }
    requires sound { HasWaysAndSize want.now }
    requires endpoint { is_endpoint_at host.now.topo.now.nodes node ≡ true }
    requires here { node < length host.now.topo.now.nodes }
    ensures { AreCounts result
        (λ m. if (m == 1) && can_serve_itself (as_system host.now) want.now w.now start node then 1 else 0) }
{
    let mut counts = no_counts();
    if can_serve_itself(host, want, w, start, node) {
        counts.one = 1;
    }
    counts
}

/// What a port gives, where its children offer so much.
fn port_counts(
    host: &Host,
    want: &Want,
    w: &Window,
    start: u64,
    offers: &Counts,
    node: u32,
) -> Counts
    requires ready { IsOrderlySystem (as_system host.now) }
    requires here { node < length host.now.topo.now.nodes }
    requires offers { AreCounts offers.now (λ v. length (offers_of (as_system host.now) want.now w.now start node v)) }
    ensures { AreCounts result (λ m. one_if (find (λ u. can_serve_by (as_system host.now) want.now w.now start node m
        (length (offers_of (as_system host.now) want.now w.now start node (m / u))) u) (8 ∷ 4 ∷ 2 ∷ 1 ∷ []))) }
{
    if !is_open(host, start, node) {
        return no_counts();
    }
    Counts {
        one: leads(host, want, w, offers, node, 1),
        two: leads(host, want, w, offers, node, 2),
        three: leads(host, want, w, offers, node, 3),
        four: leads(host, want, w, offers, node, 4),
        six: leads(host, want, w, offers, node, 6),
        eight: leads(host, want, w, offers, node, 8),
        twelve: leads(host, want, w, offers, node, 12),
        sixteen: leads(host, want, w, offers, node, 16),
    }
}

/// 1 where a port that is open could lead to `m` endpoints.
fn leads(host: &Host, want: &Want, w: &Window, offers: &Counts, node: u32, m: u8) -> u16
    requires here { node < length host.now.topo.now.nodes }
    requires known { is_ways m ≡ true }
    ensures { (f : ℕ → ℕ) → AreCounts offers.now f → result ≡ one_if (find (λ u.
        can_lead (as_system host.now) want.now w.now node m (f (m / u)) u) (8 ∷ 4 ∷ 2 ∷ 1 ∷ [])) }
{
    if leads_by(host, want, w, offers, node, m, 8) {
        return 1;
    }
    if leads_by(host, want, w, offers, node, m, 4) {
        return 1;
    }
    if leads_by(host, want, w, offers, node, m, 2) {
        return 1;
    }
    if leads_by(host, want, w, offers, node, m, 1) {
        return 1;
    }
    0
}

/// Whether a port that is open could lead to `m` endpoints by `u` of its children.
fn leads_by(host: &Host, want: &Want, w: &Window, offers: &Counts, node: u32, m: u8, u: u8) -> bool
    requires here { node < length host.now.topo.now.nodes }
    requires known { is_ways m ≡ true }
    requires count { is_target_count u ≡ true }
    ensures { (f : ℕ → ℕ) → AreCounts offers.now f
        → result ≡ can_lead (as_system host.now) want.now w.now node m (f (m / u)) u }
{
    if m % u != 0 {
        return false;
    }
    can_lead(host, want, w, node, m, told(offers, m / u), u)
}
