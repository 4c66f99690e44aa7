//! The routes of a region, by which those of all its bytes follow without registers.

ghost use Rattle.std.specs.Prelude.{◌≡◌, ◌↔◌, ℕ, ◌+◌, ◌-◌, ◌<◌, ◌≤◌, length, drop, replicate, IfOk};
ghost use Rattle.cxl_window.specs.Fields.{WindowFields};
ghost use Rattle.cxl_window.specs.Windows.{AreMadeWith};
ghost use Rattle.cxl_image.specs.Images.{HasCapsOf};
ghost use Rattle.cxl_deal.specs.Weaves.{weave_ways};
ghost use Rattle.cxl_model.specs.declared.found.Found.{Found};
ghost use Rattle.cxl_model.specs.System.{System, IsSystem, system_of, bridge_uids};
ghost use Rattle.cxl_model.specs.Chain.{Chain, Routed};
ghost use Rattle.cxl_model.specs.Accepted.{KeepsBlocks};
ghost use Rattle.cxl_model.specs.Regions.{IsRegion, IsRegionIn, region_range, weave_fields};
ghost use Rattle.cxl_model.specs.Changes.{HaveSameDecoders, HaveSameOwnDecoders};
ghost use Rattle.cxl_walk.specs.Routes.{routing_of, no_step};
ghost use Rattle.cxl_walk.specs.Keeping.{KeptFields, IsSlotRoute, IsKept, IsKeptOf, HasOwn, IsOwnIn};

use crate::above::{no_steps, put_steps};
use crate::own::Own;
use crate::owned::{own_at, own_in, put_likely};
use crate::route::Route;
use cxl_deal::{Weave, deal, region_fills_slots};
use cxl_image::Image;
use cxl_model::{
    FixedList, Found, Memory, chain_is_the_dealing, chains_have_one_end, regions_lie_in_windows,
    routes_stay, slots_are_endpoints, weave_of, weaves_fill_their_regions,
};
use cxl_topo::Topo;
use cxl_window::{Window, root_ways, target_position};
use std::alloc::Global;
use std::marker::Model;

/// The routes of a region: one for each slot, from which that of each of its host bytes follows without
/// reading registers; and which decoders of which nodes are its own.
#[derive(Drop)]
pub struct Kept {
    weave: Weave,
    routes: FixedList<Route>,
    own: FixedList<Own>,
}

impl Model for Kept {
    ghost use Rattle.cxl_walk.specs.Keeping.{KeptFields};

    ghost Value = { KeptFields };

    ghost view = { λ kept. record { weave = kept.weave; routes = kept.routes; own = kept.own } };
}

impl Kept {
    /// A region's weave and the route of each slot. Takes memory.
    pub fn new(
        alloc: Global,
        image: &Image,
        topo: &Topo,
        windows: &[Window],
        found: &Found,
    ) -> Result<Kept, Memory>
        requires caps { HasCapsOf image.now topo.now.nodes }
        requires made { AreMadeWith windows.now (bridge_uids topo.now.nodes) }
        requires region { IsRegion (system_of image.now topo.now windows.now) found.now }
        ensures { IfOk result (λ kept. (w : WindowFields)
            → IsRegionIn (system_of image.now topo.now windows.now) w found.now
            → IsKept (system_of image.now topo.now windows.now) w found.now kept) }
    {
        let nodes = topo.count();
        let blocks = image.count();
        prove!(nodes == blocks);
        let own = own_in(alloc, image, topo, found)?;
        Kept::along(alloc, topo, windows, found, own)
    }

    /// The routes of a region by its own decoders. No register is read, so that they may be those of an image that is
    /// yet to be made. Takes memory.
    pub fn along(
        alloc: Global,
        topo: &Topo,
        windows: &[Window],
        found: &Found,
        own: Vec<Own>,
    ) -> Result<Kept, Memory>
        requires { (s : System) × HasOwn s topo.now.nodes windows.now found.now own.items }
        ensures { IfOk result (λ kept. (s : System) (w : WindowFields)
            → HasOwn s topo.now.nodes windows.now found.now own.items → IsRegionIn s w found.now
            → IsKept s w found.now kept) }
    {
        let mut none = Vec::new(alloc);
        Kept::along_by(alloc, topo, windows, found, own, &mut none)
    }

    /// The same, with a table of likely places by node, where its decoder is sought first. The table may hold anything, so that
    /// one serves all regions in turn. Takes memory.
    pub fn along_by(
        alloc: Global,
        topo: &Topo,
        windows: &[Window],
        found: &Found,
        own: Vec<Own>,
        likely: &mut Vec<usize>,
    ) -> Result<Kept, Memory>
        requires { (s : System) × HasOwn s topo.now.nodes windows.now found.now own.items }
        ensures kept { IfOk result (λ kept. (s : System) (w : WindowFields)
            → HasOwn s topo.now.nodes windows.now found.now own.items → IsRegionIn s w found.now
            → IsKept s w found.now kept) }
        ensures long { length likely.new.items ≡ length likely.old.items }
    {
        regions_lie_in_windows();
        put_likely(likely, &own);
        let window = &windows[found.window as usize];
        let weave = weave_in(window, found);
        let mut routes = Vec::with_capacity(alloc, usize::from(found.ways))?;
        for slot in 0..found.ways {
            let route = slot_route(topo, window, &own, likely, found, slot);
            routes.push_reserved(route);
        }
        Ok(Kept {
            weave,
            routes: FixedList::new(routes),
            own: FixedList::new(own),
        })
    }

    /// The region's weave.
    pub fn weave(&self) -> &Weave
        ensures { result.now ≡ self.now.weave }
    {
        &self.weave
    }

    /// For each slot the route of the host byte that is dealt to it at offset 0.
    pub fn routes(&self) -> &[Route]
        ensures { result.now ≡ self.now.routes }
    {
        self.routes.items()
    }

    /// The region's own decoders, in rising node order.
    pub fn own(&self) -> &[Own]
        ensures { result.now ≡ self.now.own }
    {
        self.own.items()
    }

    /// The route of a host byte of the region: that of its slot, so many bytes on. No register is read. The condition
    /// says that the region holds the address.
    pub fn route(&self, h: u64) -> Route
        requires { IsKeptOf self.now h }
        ensures chain { (s : System) (w : WindowFields) (found : Found) → IsSystem s → IsRegionIn s w found
            → IsKept s w found self.now → found.base ≤ h → h < found.base + found.size
            → Chain s h (Routed (routing_of result)) }
        ensures zeros { drop result.len result.steps ≡ replicate (5 - result.len) no_step }
    {
        weaves_fill_their_regions();
        slots_are_endpoints();
        region_fills_slots();
        chain_is_the_dealing();
        let dealt = deal(&self.weave, h);
        let mut route = self.routes.items()[dealt.slot as usize];
        route.dpa += dealt.offset;
        route
    }
}

/// A law of changes: the kept routes of a region are those of any image in which it is a region by the same decoders,
/// however all others change; so they are of an image that has the same decoders below these too, and keeps K1 to K8.
/// (A skip below a decoder moves what stands above it.)
pub fn kept_routes_stay()
    ensures own { (s t : System) (w : WindowFields) (found : Found) (kept : KeptFields) → IsSystem s → IsSystem t
        → HaveSameOwnDecoders s t (region_range found) → IsRegionIn s w found → IsRegionIn t w found
        → (IsKept s w found kept) ↔ (IsKept t w found kept) }
    ensures below { (s t : System) (w : WindowFields) (found : Found) (kept : KeptFields) → IsSystem s → IsSystem t
        → HaveSameDecoders s t (region_range found) → KeepsBlocks t → IsRegionIn s w found
        → (IsKept s w found kept) ↔ (IsKept t w found kept) }
{
    routes_stay();
}

/// The weave of a region in its window.
fn weave_in(window: &Window, found: &Found) -> Weave
    requires { (s : System) × IsSystem s × IsRegionIn s window.now found.now }
    ensures weave { result ≡ weave_fields found.now window.now }
    ensures ways { weave_ways result ≡ found.now.ways }
{
    weaves_fill_their_regions();
    weave_of(found, window)
}

/// The route of the host byte that is dealt to a slot at offset 0: over the window's target and by the steps of the slot,
/// to the first byte of its span.
fn slot_route(
    topo: &Topo,
    window: &Window,
    own: &[Own],
    likely: &[usize],
    found: &Found,
    slot: u8,
) -> Route
    requires region { (s : System) × IsOwnIn s topo.now.nodes window.now found.now own.now }
    requires slot { slot < found.now.ways }
    ensures { (s : System) → IsOwnIn s topo.now.nodes window.now found.now own.now
        → IsSlotRoute s window.now found.now slot result }
{
    weaves_fill_their_regions();
    region_fills_slots();
    chain_is_the_dealing();
    slots_are_endpoints();
    let place = found.spans.items()[usize::from(slot)];
    let count = topo.count();
    prove!(place.endpoint < count);
    let root = root_ways(window);
    let mut above = no_steps(u32::from(slot) / root);
    put_steps(&mut above, topo, own, likely, root, slot, place.endpoint);
    let steps = above.steps;
    let last = own_at(own, likely, place.endpoint).unwrap();
    Route {
        window: found.window,
        position: u32::from(target_position(window, slot)),
        base: found.base,
        len: above.len,
        steps,
        endpoint: place.endpoint,
        decoder: last.index,
        dpa: place.start,
    }
}
