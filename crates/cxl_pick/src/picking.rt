//! The pick: endpoints for a region, window by window and bridge by bridge.

ghost use Rattle.std.specs.Prelude.{◌≡◌, ◌≢◌, ◌≤◌, ◌<◌, ◌==◌, ◌/◌, if◌then◌else◌, true, false, [], length, Some, None, map, option_map, option_and_then, IfOk, IfErr, IfSome, OnOk, MatchOption, All, Ok, Err};
ghost use Rattle.std.specs.List.{list_any};
ghost use Rattle.cxl_enc.specs.Codes.{is_ways};
ghost use Rattle.cxl_topo.specs.Tree.{is_endpoint_at, bridge_with};
ghost use Rattle.cxl_window.specs.Fields.{WindowFields};
ghost use Rattle.cxl_window.specs.Windows.{AreMadeWith};
ghost use Rattle.cxl_model.specs.Hosts.{as_system};
ghost use Rattle.cxl_model.specs.System.{IsSystem, system_of, bridge_uids};
ghost use Rattle.cxl_model.specs.Accepted.{IsAccepted, IsOrderlySystem};
ghost use Rattle.cxl_pick.specs.Picking.{IsWantedSize, gives, given_in, all_given, AreInOrder, IsPicked, NothingGiven, TellsPickFault, FitsFirst, NothingFits, PlansFirst, NothingPlans};
ghost use Rattle.cxl_pick.specs.Picked.{picked};
ghost use Rattle.cxl_pick.specs.inner.Wanted.{HasWaysAndSize};
ghost use Rattle.cxl_pick.specs.inner.Gifts.{AreHighest, AreGifts, IsAsked};

use crate::asking::ask;
use crate::children::highest_ports;
use crate::fault::PickFault;
use crate::gathering::give;
use crate::gifts::{Gifts, known_at, table_for};
use crate::laws::{
    fitting_sets_are_given, fitting_sets_have_plans, given_sets_fit, wants_come_to_answers,
};
use crate::terms::{can_take, latest_start};
use crate::want::Want;
use cxl_image::Image;
use cxl_legal::{is_size, is_ways, ports_are_bytes};
use cxl_model::{Host, accepted_image_is_system};
use cxl_topo::{Topo, tree_laws};
use cxl_window::Window;
use std::alloc::{AllocError, Global};

/// Endpoints for a region of so many ways, in rising order: those that the target bridges give of the first window in
/// which each gives something. (Which are picked is this project's rule.) Takes memory.
pub fn pick(
    alloc: Global,
    image: &Image,
    topo: &Topo,
    windows: &[Window],
    want: &Want,
) -> Result<Vec<u32>, PickFault>
    requires made { AreMadeWith windows.now (bridge_uids topo.now.nodes) }
    requires accepted { IsAccepted (system_of image.now topo.now windows.now) }
    requires code { IfSome want.now.gran (λ code. code ≤ 6) }
    ensures picked { IfOk result
        (λ set. (w : WindowFields) × IsPicked (system_of image.now topo.now windows.now) want.now w set.items) }
    ensures endpoints { IfOk result (λ set. All (λ m. is_endpoint_at topo.now.nodes m ≡ true) set.items) }
    ensures count { IfOk result (λ set. length set.items ≡ want.now.ways) }

    // In the window of the pick they keep all that a request has to, and no set of so many endpoints does so in an
    // earlier one.
    ensures fits { IfOk result (λ set. (w : WindowFields)
        → IsPicked (system_of image.now topo.now windows.now) want.now w set.items
        → FitsFirst (system_of image.now topo.now windows.now) want.now w set.items) }

    // They have a legal plan there, and no set of so many endpoints has one in an earlier window.
    ensures legal { IfOk result (λ set. (w : WindowFields)
        → IsPicked (system_of image.now topo.now windows.now) want.now w set.items
        → PlansFirst (system_of image.now topo.now windows.now) want.now w set.items) }

    // The first two faults come exactly where they hold, and the third where no set of so many endpoints keeps all
    // that a request has to.
    ensures ways { is_ways want.now.ways ≡ false → result ≡ Err (PickFault.Ways want.now.ways) }
    ensures size { is_ways want.now.ways ≡ true → (IsWantedSize want.now → ⊥) → result ≡ Err PickFault.Size }
    ensures fault { IfErr result (TellsPickFault (system_of image.now topo.now windows.now) want.now) }
    ensures nothing { IfErr result (λ fault. fault ≡ PickFault.NoSet
        → NothingFits (system_of image.now topo.now windows.now) want.now) }
    // Then no set of so many endpoints has a legal plan in any window.
    ensures none { IfErr result (λ fault. fault ≡ PickFault.NoSet
        → NothingPlans (system_of image.now topo.now windows.now) want.now) }

    // So but for want of memory there is one answer, which is computed from the nodes, blocks and windows.
    ensures answer { IfOk result (λ set. picked (system_of image.now topo.now windows.now) want.now ≡ Ok set.items) }
    ensures refusal { IfErr result (λ fault. fault ≢ PickFault.Memory
        → picked (system_of image.now topo.now windows.now) want.now ≡ Err fault) }
{
    wants_come_to_answers();
    fitting_sets_have_plans();
    given_sets_fit();
    fitting_sets_are_given();
    tree_laws();
    ports_are_bytes(topo);
    if !is_ways(usize::from(want.ways)) {
        return Err(PickFault::Ways(u32::from(want.ways)));
    }
    if !is_size(want.size, want.ways) {
        return Err(PickFault::Size);
    }
    let host = Host {
        image,
        topo,
        windows,
    };
    settle(&host);
    match pick_first(alloc, &host, want) {
        Ok(Some(set)) => Ok(set),
        Ok(None) => Err(PickFault::NoSet),
        Err(_) => Err(PickFault::Memory),
    }
}

/// An accepted image over its topology, with its windows, is a system. Does nothing, so that a caller can rest on it.
fn settle(host: &Host)
    requires made { AreMadeWith host.now.windows.now (bridge_uids host.now.topo.now.nodes) }
    requires accepted { IsAccepted (as_system host.now) }
    ensures system { IsSystem (as_system host.now) }
    ensures ready { IsOrderlySystem (as_system host.now) }
{
    accepted_image_is_system(host.image, host.topo, host.windows);
}

/// The endpoints picked in the first window in which each target bridge gives something. Takes memory.
fn pick_first(alloc: Global, host: &Host, want: &Want) -> Result<Option<Vec<u32>>, AllocError>
    requires system { IsSystem (as_system host.now) }
    requires ready { IsOrderlySystem (as_system host.now) }
    requires sound { HasWaysAndSize want.now }
    ensures { IfOk result (λ o. MatchOption o (NothingGiven (as_system host.now) want.now)
        (λ set. (w : WindowFields) × IsPicked (as_system host.now) want.now w set.items)) }
{
    tree_laws();
    let highest = highest_ports(alloc, host.topo)?;
    let mut tables = Vec::new(alloc);
    let picked = pick_over(&mut tables, alloc, host, want, &highest);
    drop(tables);
    picked
}

/// The same over the highest ports of all nodes, with the tables of what nodes give, which are made as they are asked for. Takes
/// memory.
fn pick_over(
    tables: &mut Vec<Gifts>,
    alloc: Global,
    host: &Host,
    want: &Want,
    highest: &[u8],
) -> Result<Option<Vec<u32>>, AllocError>
    requires system { IsSystem (as_system host.now) }
    requires ready { IsOrderlySystem (as_system host.now) }
    requires sound { HasWaysAndSize want.now }
    requires count { length highest.now ≡ length host.now.topo.now.nodes }
    requires highest { AreHighest host.now.topo.now.nodes highest.now }
    requires tables { All (AreGifts (as_system host.now) want.now) tables.old.items }
    ensures { IfOk result (λ o. MatchOption o (NothingGiven (as_system host.now) want.now)
        (λ set. (w : WindowFields) × IsPicked (as_system host.now) want.now w set.items)) }
{
    tree_laws();
    for w in host.windows {
        match pick_in(tables, alloc, host, want, w, highest)? {
            Some(given) => {
                let set = in_order(alloc, host.topo.count(), &given)?;
                return Ok(Some(set));
            }
            None => {}
        }
    }
    Ok(None)
}

/// What the target bridges of a window give, where each gives something. Takes memory.
fn pick_in(
    tables: &mut Vec<Gifts>,
    alloc: Global,
    host: &Host,
    want: &Want,
    w: &Window,
    highest: &[u8],
) -> Result<Option<Vec<u32>>, AllocError>
    requires ready { IsOrderlySystem (as_system host.now) }
    requires sound { HasWaysAndSize want.now }
    requires count { length highest.now ≡ length host.now.topo.now.nodes }
    requires highest { AreHighest host.now.topo.now.nodes highest.now }
    requires tables { All (AreGifts (as_system host.now) want.now) tables.old.items }
    ensures tables { OnOk result (All (AreGifts (as_system host.now) want.now) tables.new.items) }
    ensures given { IfOk result
        (λ o. option_map (λ given. given.items) o ≡ given_in (as_system host.now) want.now w.now) }
{
    tree_laws();
    let _index = w.index();
    if !can_take(want, w) {
        return Ok(None);
    }
    let Some(start) = latest_start(want, w) else {
        return Ok(None);
    };
    let place = table_for(tables, alloc, host, want, w, start)?;
    all_given(&mut tables[place], alloc, host, want, w, start, highest)
}

/// What the target bridges of a window that can take the region give for their shares, where each gives something. Takes
/// memory.
fn all_given(
    gifts: &mut Gifts,
    alloc: Global,
    host: &Host,
    want: &Want,
    w: &Window,
    start: u64,
    highest: &[u8],
) -> Result<Option<Vec<u32>>, AllocError>
    requires ready { IsOrderlySystem (as_system host.now) }
    requires sound { HasWaysAndSize want.now }
    requires count { length highest.now ≡ length host.now.topo.now.nodes }
    requires highest { AreHighest host.now.topo.now.nodes highest.now }
    requires gifts { AreGifts (as_system host.now) want.now gifts.old }
    requires asked { IsAsked want.now gifts.old w.now start }
    ensures gifts { OnOk result (AreGifts (as_system host.now) want.now gifts.new) }
    ensures given { IfOk result (λ o. option_map (λ given. given.items) o
        ≡ all_given (map (λ uid. option_and_then
        (λ b. gives (as_system host.now) want.now w.now start b (want.now.ways / w.now.ways))
        (bridge_with host.now.topo.now.nodes uid)) w.now.targets)) }
{
    let mut given = Vec::new(alloc);
    if !give_for_each(&mut given, gifts, alloc, host, want, w, start, highest)? {
        return Ok(None);
    }
    Ok(Some(given))
}

/// Writes what they give into an empty list, and says whether each gives something. Takes memory.
fn give_for_each(
    given: &mut Vec<u32>,
    gifts: &mut Gifts,
    alloc: Global,
    host: &Host,
    want: &Want,
    w: &Window,
    start: u64,
    highest: &[u8],
) -> Result<bool, AllocError>
    requires ready { IsOrderlySystem (as_system host.now) }
    requires sound { HasWaysAndSize want.now }
    requires count { length highest.now ≡ length host.now.topo.now.nodes }
    requires highest { AreHighest host.now.topo.now.nodes highest.now }
    requires none { given.old.items ≡ [] }
    requires gifts { AreGifts (as_system host.now) want.now gifts.old }
    requires asked { IsAsked want.now gifts.old w.now start }
    ensures gifts { OnOk result (AreGifts (as_system host.now) want.now gifts.new) }
    ensures given { IfOk result (λ each. (if each then Some given.new.items else None)
        ≡ all_given (map (λ uid. option_and_then
        (λ b. gives (as_system host.now) want.now w.now start b (want.now.ways / w.now.ways))
        (bridge_with host.now.topo.now.nodes uid)) w.now.targets)) }
{
    tree_laws();
    let _count = host.topo.count();
    let share = want.ways / w.ways();
    let targets = w.targets();
    for uid in targets {
        let Some(bridge) = host.topo.bridge(*uid) else {
            return Ok(false);
        };
        ask(gifts, alloc, host, want, w, start, highest, bridge)?;
        if known_at(gifts, bridge, share) == 0 {
            return Ok(false);
        }
        give(
            given, alloc, gifts, host, want, w, start, highest, bridge, share,
        )?;
    }
    Ok(true)
}

/// The same numbers of nodes in rising order. Takes memory.
fn in_order(alloc: Global, count: u32, given: &[u32]) -> Result<Vec<u32>, AllocError>
    requires { All (λ n. n < count) given.now }
    ensures { IfOk result (λ set. AreInOrder given.now set.items) }
{
    let mut set = Vec::new(alloc);
    for node in 0..count {
        if is_given(given, node) {
            set.push(node)?;
        }
    }
    Ok(set)
}

/// Whether the node is among the given ones.
fn is_given(given: &[u32], node: u32) -> bool
    ensures { result ≡ list_any (λ n. n == node) given.now }
{
    given.contains(&node)
}
