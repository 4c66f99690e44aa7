//! What nodes give: endpoints, in the order of the ports that lead to them.

ghost use Rattle.std.specs.Prelude.{◌≡◌, ◌<◌, ◌≤◌, ◌++◌, [], true, length, unwrap_or, OnOk};
ghost use Rattle.cxl_model.specs.Hosts.{as_system};
ghost use Rattle.cxl_model.specs.Accepted.{IsOrderlySystem};
ghost use Rattle.cxl_pick.specs.Picking.{gives};
ghost use Rattle.cxl_pick.specs.inner.Gifts.{AreHighest, AreGifts, IsAsked, is_known};

use crate::children::children_of;
use crate::gifts::{Gifts, known_at};
use crate::want::Want;
use cxl_model::Host;
use cxl_topo::tree_laws;
use cxl_window::Window;
use std::alloc::{AllocError, Global};

/// Appends what a node that was asked gives for `m` endpoints. Takes memory.
pub(crate) fn give(
    given: &mut Vec<u32>,
    alloc: Global,
    gifts: &Gifts,
    host: &Host,
    want: &Want,
    w: &Window,
    start: u64,
    highest: &[u8],
    node: u32,
    m: u8,
) -> Result<(), AllocError>
    requires ready { IsOrderlySystem (as_system host.now) }
    requires count { length highest.now ≡ length host.now.topo.now.nodes }
    requires highest { AreHighest host.now.topo.now.nodes highest.now }
    requires here { node < length host.now.topo.now.nodes }
    requires few { m ≤ 16 }
    requires gifts { AreGifts (as_system host.now) want.now gifts.now }
    requires asked { IsAsked want.now gifts.now w.now start }
    requires known { is_known gifts.now.known.items node ≡ true }
    ensures { OnOk result (given.new.items
        ≡ given.old.items ++ unwrap_or (gives (as_system host.now) want.now w.now start node m) []) }
{
    // A child comes after its parent.
    tree_laws();
    let _count = host.topo.count();
    let used = known_at(gifts, node, m);
    if used == 0 {
        return Ok(());
    }
    if host.topo.is_endpoint(node) {
        given.push(node)?;
        return Ok(());
    }
    let own = children_of(alloc, host.topo, node, highest[node as usize])?;
    let children = own.as_slice();
    let mut left = used;
    for child in children {
        if left > 0 && known_at(gifts, *child, m / used) != 0 {
            give(
                given,
                alloc,
                gifts,
                host,
                want,
                w,
                start,
                highest,
                *child,
                m / used,
            )?;
            left -= 1;
        }
    }
    Ok(())
}
