//! The first reason that holds of all sets, of each window.

ghost use Rattle.std.specs.Prelude.{◌≡◌, ℕ, ◌<◌, ◌≤◌, ◌%◌, List, All, length, slice_get, true, false, IfOk, IfSome, Some, None};
ghost use Rattle.cxl_enc.specs.Codes.{is_ways};
ghost use Rattle.cxl_regs.specs.Registers.{IsBlock};
ghost use Rattle.cxl_topo.specs.declared.node.Parent.{Parent};
ghost use Rattle.cxl_topo.specs.Tree.{parent_of};
ghost use Rattle.cxl_window.specs.Fields.{WindowFields};
ghost use Rattle.cxl_window.specs.Windows.{AreMadeWith};
ghost use Rattle.cxl_image.specs.Images.{HasCapsOf, reset_blocks};
ghost use Rattle.cxl_model.specs.Hosts.{as_system};
ghost use Rattle.cxl_model.specs.System.{system_of, bridge_uids};
ghost use Rattle.cxl_model.specs.Accepted.{IsAccepted, IsOrderlySystem};
ghost use Rattle.cxl_pick.specs.Picking.{HasPlanIn, IsWantedSize, NothingPlans};
ghost use Rattle.cxl_reason.specs.declared.reason.SetReason.{SetReason};
ghost use Rattle.cxl_reason.specs.Reasons.{HasCodes, HasNoCodes, HasNoPlanIn, IsAskedOf, IsSetReason};
ghost use Rattle.cxl_reason.specs.inner.Asked.{is_open_to};
ghost use Rattle.cxl_reason.specs.inner.Ready.{AreAnswers, AreReady, HasAnswer};

use crate::counting::count_there;
use crate::laws::{
    codes_stand_where_bridges_give, plans_stand_where_bridges_give, reasons_hold_of_all_sets,
};
use crate::reason::SetReason;
use crate::sizes::largest_size;
use crate::windows::{all_give, is_given};
use cxl_enc::{Memory, UNIT};
use cxl_image::Image;
use cxl_legal::{agrees_on_gran, ports_are_bytes};
use cxl_model::{Host, accepted_image_is_system, reset_hosts_are_accepted};
use cxl_pick::{Want, picked_sets_have_plans};
use cxl_topo::Topo;
use cxl_window::{Window, is_fixed, permits};
use std::alloc::Global;

/// For each window, in their order, the first reason that holds of all sets of so many endpoints, or `None` where some set
/// has a legal plan there. (Which reasons there are, and their order, is this project's rule.) Takes memory.
pub fn reasons(
    alloc: Global,
    image: &Image,
    topo: &Topo,
    windows: &[Window],
    want: &Want,
) -> Result<Vec<Option<SetReason>>, Memory>
    requires made { AreMadeWith windows.now (bridge_uids topo.now.nodes) }
    requires accepted { IsAccepted (system_of image.now topo.now windows.now) }
    requires code { IfSome want.now.gran (λ code. code ≤ 6) }
    requires ways { is_ways want.now.ways ≡ true }
    requires size { IsWantedSize want.now }
    ensures count { IfOk result (λ told. length told.items ≡ length windows.now) }

    // What is told is the first reason that holds of the window; then no set has a legal plan there.
    ensures reason { IfOk result (λ told. (i : ℕ) (w : WindowFields) (reason : SetReason)
        → slice_get windows.now i ≡ Some w → slice_get told.items i ≡ Some (Some reason)
        → IsSetReason (system_of image.now topo.now windows.now) want.now w reason) }
    ensures refused { IfOk result (λ told. (i : ℕ) (w : WindowFields) (reason : SetReason)
        → slice_get windows.now i ≡ Some w → slice_get told.items i ≡ Some (Some reason)
        → HasNoPlanIn (system_of image.now topo.now windows.now) want.now w) }

    // Where none is told, some set has a legal plan in the window. So where no set is picked, each window has a reason.
    ensures none { IfOk result (λ told. (i : ℕ) (w : WindowFields)
        → slice_get windows.now i ≡ Some w → slice_get told.items i ≡ Some None
        → (set : List ℕ) × HasPlanIn (system_of image.now topo.now windows.now) want.now w set) }
    ensures all { IfOk result (λ told. NothingPlans (system_of image.now topo.now windows.now) want.now
        → (i : ℕ) → slice_get told.items i ≡ Some None → ⊥) }
{
    reasons_hold_of_all_sets();
    let host = Host {
        image,
        topo,
        windows,
    };
    settle(&host, want);
    let reset = Image::new(alloc, topo)?;
    settle_reset(&reset, topo, windows);
    let fresh = Host {
        image: &reset,
        topo,
        windows,
    };
    let highest = highest_port(topo);
    let answers = answers_of(alloc, &host, &fresh, want, highest);
    drop(reset);
    answers
}

// ---- what is known of a host

/// A set can be asked of an accepted image over its topology, with its windows. Does nothing, so that a caller can rest on
/// it.
fn settle(host: &Host, want: &Want)
    requires made { AreMadeWith host.now.windows.now (bridge_uids host.now.topo.now.nodes) }
    requires accepted { IsAccepted (as_system host.now) }
    requires code { IfSome want.now.gran (λ code. code ≤ 6) }
    requires ways { is_ways want.now.ways ≡ true }
    ensures asked { IsAskedOf (as_system host.now) want.now }
    ensures ready { IsOrderlySystem (as_system host.now) }
{
    accepted_image_is_system(host.image, host.topo, host.windows);
    ports_are_bytes(host.topo);
}

/// The same of an image after reset. Does nothing, so that a caller can rest on it.
fn settle_reset(reset: &Image, topo: &Topo, windows: &[Window])
    requires made { AreMadeWith windows.now (bridge_uids topo.now.nodes) }
    requires reset { reset.now ≡ reset_blocks topo.now.nodes }
    requires caps { HasCapsOf reset.now topo.now.nodes }
    ensures ready { IsOrderlySystem (system_of reset.now topo.now windows.now) }
    ensures blocks { All IsBlock reset.now }
{
    reset_hosts_are_accepted();
    let _count = topo.count();
    let _blocks = reset.count();
}

/// A port above which no child of a node stands.
fn highest_port(topo: &Topo) -> u8
    ensures { (c : ℕ) (parent : Parent) → parent_of topo.now.nodes c ≡ Some parent → parent.port ≤ result }
{
    let mut highest = 0;
    for node in 0..topo.count() {
        highest = highest.max(port_above(topo, node));
    }
    highest
}

/// The port at which a node stands, or 0.
fn port_above(topo: &Topo, node: u32) -> u8
    requires { node < length topo.now.nodes }
    ensures { (parent : Parent) → parent_of topo.now.nodes node ≡ Some parent → parent.port ≤ result }
{
    match topo.node(node).parent {
        Some(parent) => parent.port,
        None => 0,
    }
}

// ---- the windows

/// The answer of each window. Takes memory.
fn answers_of(
    alloc: Global,
    host: &Host,
    fresh: &Host,
    want: &Want,
    highest: u8,
) -> Result<Vec<Option<SetReason>>, Memory>
    requires ready { AreReady (as_system host.now) (as_system fresh.now) want.now highest }
    ensures { IfOk result (λ answers. AreAnswers (as_system host.now) want.now host.now.windows.now answers.items) }
{
    let mut answers = Vec::new(alloc);
    for w in host.windows {
        answers.push(answer_of(host, fresh, want, w, highest))?;
    }
    Ok(answers)
}

/// The first reason of a window, or `None` where some set has a legal plan.
fn answer_of(host: &Host, fresh: &Host, want: &Want, w: &Window, highest: u8) -> Option<SetReason>
    requires ready { AreReady (as_system host.now) (as_system fresh.now) want.now highest }
    requires there { slice_get host.now.windows.now w.now.index ≡ Some w.now }
    ensures { HasAnswer (as_system host.now) want.now w.now result }
{
    if !w.is_usable() {
        return Some(SetReason::Unusable);
    }
    if !permits(w, want.kind) {
        return Some(SetReason::Kind);
    }
    if is_fixed(w) {
        return Some(SetReason::Fixed);
    }
    if !agrees_on_gran(want.gran, w) {
        return Some(SetReason::Gran);
    }
    answer_of_sets(host, fresh, want, w, highest)
}

/// The first reason of a window that can be taken.
fn answer_of_sets(
    host: &Host,
    fresh: &Host,
    want: &Want,
    w: &Window,
    highest: u8,
) -> Option<SetReason>
    requires ready { AreReady (as_system host.now) (as_system fresh.now) want.now highest }
    requires there { slice_get host.now.windows.now w.now.index ≡ Some w.now }
    requires opened { is_open_to want.now w.now ≡ true }
    ensures { HasAnswer (as_system host.now) want.now w.now result }
{
    plans_stand_where_bridges_give();
    let count = count_there(host, want.kind, w);
    if count < u32::from(want.ways) {
        return Some(SetReason::Few(count));
    }
    if !has_codes(host, fresh, want, w, highest) {
        return Some(SetReason::NoCodes);
    }
    if is_given(host, want, w, highest) {
        return None;
    }
    Some(SetReason::NoRoom(largest_size(host, want, w, highest)))
}

/// Whether some set has codes in a window that can be taken, whose ways then divide those that are wanted.
fn has_codes(host: &Host, fresh: &Host, want: &Want, w: &Window, highest: u8) -> bool
    requires ready { AreReady (as_system host.now) (as_system fresh.now) want.now highest }
    requires there { slice_get host.now.windows.now w.now.index ≡ Some w.now }
    requires opened { is_open_to want.now w.now ≡ true }
    ensures divides { result ≡ true → want.now.ways % w.now.ways ≡ 0 }
    ensures some { result ≡ true → (set : List ℕ) × HasCodes (as_system host.now) want.now w.now set }
    ensures none { result ≡ false → HasNoCodes (as_system host.now) want.now w.now }
{
    codes_stand_where_bridges_give();
    if want.ways % w.ways() != 0 {
        return false;
    }
    let least = Want {
        kind: want.kind,
        size: UNIT * u64::from(want.ways),
        gran: want.gran,
        ways: want.ways,
    };
    all_give(fresh, &least, w, 0, highest)
}
