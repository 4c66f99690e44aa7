//! What a node gives, worked out where a bridge of a window is asked, and noted.

ghost use Rattle.std.specs.Prelude.{◌≡◌, ℕ, ◌/◌, ◌<◌, ◌≤◌, ◌==◌, ◌&&◌, if◌then◌else◌, [], ◌∷◌, true, false, length, find, unwrap_or, OnOk};
ghost use Rattle.cxl_enc.specs.Caps.{is_target_count};
ghost use Rattle.cxl_topo.specs.Tree.{is_endpoint_at};
ghost use Rattle.cxl_window.specs.Fields.{WindowFields};
ghost use Rattle.cxl_model.specs.Hosts.{as_system};
ghost use Rattle.cxl_model.specs.Accepted.{IsOrderlySystem};
ghost use Rattle.cxl_legal.specs.Bases.{last_end};
ghost use Rattle.cxl_pick.specs.Picking.{can_serve_itself, is_open};
ghost use Rattle.cxl_pick.specs.inner.Wanted.{HasWaysAndSize};
ghost use Rattle.cxl_pick.specs.inner.Gifts.{AreHighest, AreChildrenOf, AreChildrenKnown, AreGifts, IsAsked, IsGift, can_lead, is_known, used_with, willing_of};

use crate::children::children_of;
use crate::gifts::{Gift, Gifts, is_known, known_at, narrowed, note};
use crate::nodes::{can_lead, can_serve_itself, is_open};
use crate::want::Want;
use cxl_legal::last_end;
use cxl_model::Host;
use cxl_topo::tree_laws;
use cxl_window::Window;
use std::alloc::{AllocError, Global};

/// Makes known what a node gives, and what each node below it does. Takes memory.
pub(crate) fn ask(
    gifts: &mut Gifts,
    alloc: Global,
    host: &Host,
    want: &Want,
    w: &Window,
    start: u64,
    highest: &[u8],
    node: u32,
) -> Result<(), AllocError>
    requires ready { IsOrderlySystem (as_system host.now) }
    requires sound { HasWaysAndSize want.now }
    requires count { length highest.now ≡ length host.now.topo.now.nodes }
    requires highest { AreHighest host.now.topo.now.nodes highest.now }
    requires here { node < length host.now.topo.now.nodes }
    requires gifts { AreGifts (as_system host.now) want.now gifts.old }
    requires asked { IsAsked want.now gifts.old w.now start }
    ensures gifts { OnOk result (AreGifts (as_system host.now) want.now gifts.new) }
    ensures asked { OnOk result (IsAsked want.now gifts.new w.now start) }
    ensures kept { OnOk result ((n : ℕ) → is_known gifts.old.known.items n ≡ true
        → is_known gifts.new.known.items n ≡ true) }
    ensures here { OnOk result (is_known gifts.new.known.items node ≡ true) }
{
    // A child comes after its parent.
    tree_laws();
    let _count = host.topo.count();
    if is_known(gifts, node) {
        return Ok(());
    }
    if host.topo.is_endpoint(node) {
        note_endpoint(gifts, host, want, w, start, node);
        return Ok(());
    }
    let own = children_of(alloc, host.topo, node, highest[node as usize])?;
    let children = own.as_slice();
    for child in children {
        ask(gifts, alloc, host, want, w, start, highest, *child)?;
    }
    note_port(gifts, host, want, w, start, children, node);
    Ok(())
}

// ---- endpoints

/// Notes what an endpoint gives.
fn note_endpoint(gifts: &mut Gifts, host: &Host, want: &Want, w: &Window, start: u64, node: u32)
    requires ready { IsOrderlySystem (as_system host.now) }
    requires sound { HasWaysAndSize want.now }
    requires endpoint { is_endpoint_at host.now.topo.now.nodes node ≡ true }
    requires here { node < length host.now.topo.now.nodes }
    requires gifts { AreGifts (as_system host.now) want.now gifts.old }
    requires asked { IsAsked want.now gifts.old w.now start }
    ensures gifts { AreGifts (as_system host.now) want.now gifts.new }
    ensures asked { IsAsked want.now gifts.new w.now start }
    ensures kept { (n : ℕ) → is_known gifts.old.known.items n ≡ true → is_known gifts.new.known.items n ≡ true }
    ensures here { is_known gifts.new.known.items node ≡ true }
{
    narrow(gifts, host, start, node);
    let gift = endpoint_gift(host, want, w, start, node);
    note(gifts, node, gift);
}

/// What an endpoint gives: itself, where it could be one of the region's.
fn endpoint_gift(host: &Host, want: &Want, w: &Window, start: u64, node: u32) -> Gift
    requires ready { IsOrderlySystem (as_system host.now) }
    requires sound { HasWaysAndSize want.now }
    requires endpoint { is_endpoint_at host.now.topo.now.nodes node ≡ true }
    requires here { node < length host.now.topo.now.nodes }
    ensures { IsGift result
        (λ m. if (m == 1) && can_serve_itself (as_system host.now) want.now w.now start node then 1 else 0) }
{
    let one = if can_serve_itself(host, want, w, start, node) {
        1
    } else {
        0
    };
    Gift {
        one,
        two: 0,
        four: 0,
        eight: 0,
        sixteen: 0,
    }
}

/// Leaves of a table's starts those from which a node is open as it is from this one.
fn narrow(gifts: &mut Gifts, host: &Host, start: u64, node: u32)
    requires ready { IsOrderlySystem (as_system host.now) }
    requires here { node < length host.now.topo.now.nodes }
    ensures gifts { (want : Want) → AreGifts (as_system host.now) want gifts.old → AreGifts (as_system host.now) want gifts.new }
    ensures asked { (want : Want) (w : WindowFields) → IsAsked want gifts.old w start → IsAsked want gifts.new w start }
    ensures known { gifts.new.known ≡ gifts.old.known }
    ensures alike { (want : Want) (w : WindowFields) (other : ℕ) → IsAsked want gifts.new w other
        → is_open (as_system host.now) start node ≡ is_open (as_system host.now) other node }
{
    gifts.starts = narrowed(gifts.starts, start, end_of(host, node));
}

/// The end of all that is committed in a node.
fn end_of(host: &Host, node: u32) -> u64
    requires ready { IsOrderlySystem (as_system host.now) }
    requires here { node < length host.now.topo.now.nodes }
    ensures { result ≡ last_end (as_system host.now) node }
{
    last_end(host.image.block(node))
}

// ---- ports

/// Notes what a port gives, of whose children it is known.
fn note_port(
    gifts: &mut Gifts,
    host: &Host,
    want: &Want,
    w: &Window,
    start: u64,
    children: &[u32],
    node: u32,
)
    requires ready { IsOrderlySystem (as_system host.now) }
    requires sound { HasWaysAndSize want.now }
    requires port { is_endpoint_at host.now.topo.now.nodes node ≡ false }
    requires here { node < length host.now.topo.now.nodes }
    requires own { AreChildrenOf host.now.topo.now.nodes node children.now }
    requires children { AreChildrenKnown (as_system host.now) gifts.old.known.items node }
    requires gifts { AreGifts (as_system host.now) want.now gifts.old }
    requires asked { IsAsked want.now gifts.old w.now start }
    ensures gifts { AreGifts (as_system host.now) want.now gifts.new }
    ensures asked { IsAsked want.now gifts.new w.now start }
    ensures kept { (n : ℕ) → is_known gifts.old.known.items n ≡ true → is_known gifts.new.known.items n ≡ true }
    ensures here { is_known gifts.new.known.items node ≡ true }
{
    tree_laws();
    narrow(gifts, host, start, node);
    let gift = port_gift(gifts, host, want, w, start, children, node);
    note(gifts, node, gift);
}

/// What a port gives, where that is all that its children give.
fn port_gift(
    gifts: &Gifts,
    host: &Host,
    want: &Want,
    w: &Window,
    start: u64,
    children: &[u32],
    node: u32,
) -> Gift
    requires ready { IsOrderlySystem (as_system host.now) }
    requires here { node < length host.now.topo.now.nodes }
    ensures { IsGift result
        (used_with (as_system host.now) want.now w.now start gifts.now.known.items children.now node) }
{
    if !is_open(host, start, node) {
        return Gift {
            one: 0,
            two: 0,
            four: 0,
            eight: 0,
            sixteen: 0,
        };
    }
    let one = ports_used(gifts, host, want, w, children, node, 1);
    let two = ports_used(gifts, host, want, w, children, node, 2);
    let four = ports_used(gifts, host, want, w, children, node, 4);
    let eight = ports_used(gifts, host, want, w, children, node, 8);
    let sixteen = ports_used(gifts, host, want, w, children, node, 16);
    Gift {
        one,
        two,
        four,
        eight,
        sixteen,
    }
}

/// The greatest number of its ports by which a port that is open could lead to `m` endpoints, or 0.
fn ports_used(
    gifts: &Gifts,
    host: &Host,
    want: &Want,
    w: &Window,
    children: &[u32],
    node: u32,
    m: u8,
) -> u8
    requires here { node < length host.now.topo.now.nodes }
    requires some { 0 < m }
    requires few { m ≤ 16 }
    ensures { result ≡ unwrap_or (find (λ u. can_lead (as_system host.now) want.now w.now node m
        (willing_of gifts.now.known.items children.now (m / u)) u) (8 ∷ 4 ∷ 2 ∷ 1 ∷ [])) 0 }
{
    if leads_by(gifts, host, want, w, children, node, m, 8) {
        return 8;
    }
    if leads_by(gifts, host, want, w, children, node, m, 4) {
        return 4;
    }
    if leads_by(gifts, host, want, w, children, node, m, 2) {
        return 2;
    }
    if leads_by(gifts, host, want, w, children, node, m, 1) {
        return 1;
    }
    0
}

/// Whether a port that is open could lead to `m` endpoints by `u` of these children.
fn leads_by(
    gifts: &Gifts,
    host: &Host,
    want: &Want,
    w: &Window,
    children: &[u32],
    node: u32,
    m: u8,
    u: u8,
) -> bool
    requires here { node < length host.now.topo.now.nodes }
    requires some { 0 < m }
    requires few { m ≤ 16 }
    requires count { is_target_count u ≡ true }
    ensures { result ≡ can_lead (as_system host.now) want.now w.now node m
        (willing_of gifts.now.known.items children.now (m / u)) u }
{
    // What the children give is asked for last, since it takes longest.
    if m % u != 0 {
        return false;
    }
    if usize::from(u) > children.len() {
        return false;
    }
    if !can_lead(host, want, w, node, m, usize::from(u), u) {
        return false;
    }
    usize::from(u) <= willing(gifts, children, m / u)
}

/// How many children give something for `share` endpoints.
fn willing(gifts: &Gifts, children: &[u32], share: u8) -> usize
    ensures { result ≡ willing_of gifts.now.known.items children.now share }
{
    let mut willing = 0;
    for child in children {
        if known_at(gifts, *child, share) != 0 {
            willing += 1;
        }
    }
    willing
}
