//! Where host bytes lie, and the bytes themselves: by the kept routes and the weaves of the live regions, and media.

ghost use Rattle.std.specs.Prelude.{◌≡◌, ◌+◌, ◌-◌, ◌≤◌, true, length, map, IfOk, OnOk, IfSome, IfNone};
ghost use Rattle.cxl_script.specs.Grammar.{access_limit, range_limit};
ghost use Rattle.cxl_window.specs.Fields.{WindowFields};
ghost use Rattle.cxl_media.specs.Blocks.{IsInOneBlock};
ghost use Rattle.cxl_model.specs.System.{System, IsSystem};
ghost use Rattle.cxl_model.specs.Contents.{Contents};
ghost use Rattle.cxl_model.specs.Regions.{IsRegionIn};
ghost use Rattle.cxl_walk.specs.Keeping.{IsKeptOf};
ghost use Rattle.cxl_move.specs.Bytes.{bytes_at};
ghost use Rattle.cxl_move.specs.Woven.{IsWovenIn, IsWovenSomewhere, HasPieces};
ghost use Rattle.cxl_script.specs.declared.command.Command.TheVariants as commands;
ghost use Rattle.cxl_reply.specs.declared.reply.Reply.TheVariants as replies;
ghost use Rattle.cxl_machine.specs.Machine.{Live, Machine, has_host, region_window};
ghost use Rattle.cxl_machine.specs.Sound.{IsMachine};
ghost use Rattle.cxl_machine.specs.Replies.{stays};
ghost use Rattle.cxl_machine.specs.Accesses.{down_answer, downed, load_answer, range_answer, spread_answer, AnswersUp, TellsHost, via_of};
ghost use Rattle.cxl_session.specs.Standing.{StandsFor, IsKeptIn};
ghost use Rattle.cxl_session.specs.Outright.{OwesRefusal};
ghost use Rattle.cxl_session.specs.inner.Answering.{StandsSomehow, IsReadFor};
ghost use Rattle.cxl_session.specs.inner.Places.{HasNoneOf};

use crate::endpoints::endpoints_by_slot;
use crate::placing::put_reply;
use crate::session::Session;
use cxl_deal::{Weave, deal};
use cxl_enc::{FixedList, Memory, Name};
use cxl_machine::live_regions_stay;
use cxl_media::Media;
use cxl_model::{
    Found, Step, chain_is_the_dealing, regions_lie_in_windows, regions_share_no_byte,
    slots_are_endpoints,
};
use cxl_move::{blocks_hold_their_pieces, carried_address, first_part, load_bytes, read_part};
use cxl_range::{extents, spread};
use cxl_regs::Decoder;
use cxl_reply::{Downed, Extents, Reply, Spread, Upped, Via};
use cxl_script::{Load, Reach, Up};
use cxl_walk::Kept;
use std::alloc::Global;

impl Session {
    /// Where a host address goes.
    pub(crate) fn down(&self, h: u64) -> Reply
        requires { (m : Machine) × StandsFor self.now m × IsMachine m }
        ensures { (m : Machine) → StandsFor self.now m → IsMachine m → down_answer m h ≡ stays m result }
    {
        match self.place_of_host(h) {
            Some(place) => Reply::Down(down_details(h, self.name_at(place), self.kept_at(place))),
            None => Reply::Unmapped,
        }
    }

    /// Makes a reply that of the bytes from a host address on. Takes memory for these alone, and none where the reply was one of
    /// as many and they lie in one piece.
    pub(crate) fn load<M: Media>(
        &self,
        alloc: Global,
        load: Load,
        media: &M,
        reply: &mut Reply,
    ) -> Result<(), Memory>
        requires stands { StandsSomehow self.now (M.state media.now) }
        requires some { 1 ≤ load.len }
        requires few { load.len ≤ access_limit }
        ensures reads { OnOk result (IsReadFor self.now (M.state media.now)
            (λ m answer. load_answer m load ≡ answer) reply.new) }
        ensures outright { OwesRefusal self.now (commands.Load load) result }
    {
        regions_lie_in_windows();
        blocks_hold_their_pieces();
        let place = match self.place_within(load.h, u64::from(load.len)) {
            Ok(place) => place,
            Err(refusal) => {
                put_reply(reply, refusal);
                return Ok(());
            }
        };
        let weave = self.kept_at(place).weave();
        put_loaded(alloc, media, self.found_at(place), weave, load, reply)
    }

    /// Makes a reply that of where a host address goes, in a function that stays one, so that a load clears no room for it.
    #[inline(never)]
    pub(crate) fn put_down(&self, h: u64, reply: &mut Reply)
        requires { (m : Machine) × StandsFor self.now m × IsMachine m }
        ensures { (m : Machine) → StandsFor self.now m → IsMachine m → down_answer m h ≡ stays m reply.new }
    {
        put_reply(reply, self.down(h));
    }

    /// The device bytes on which a range of host bytes lies. Takes memory.
    pub(crate) fn range(&self, alloc: Global, reach: Reach) -> Result<Reply, Memory>
        requires stands { (m : Machine) × StandsFor self.now m × IsMachine m }
        requires some { 1 ≤ reach.len }
        requires few { reach.len ≤ range_limit }
        ensures tells { IfOk result (λ reply. (m : Machine) → StandsFor self.now m → IsMachine m
            → range_answer m reach ≡ stays m reply) }
        ensures outright { OwesRefusal self.now (commands.Range reach) result }
    {
        regions_lie_in_windows();
        let place = match self.place_within(reach.h, reach.len) {
            Ok(place) => place,
            Err(refusal) => return Ok(refusal),
        };
        let found = self.found_at(place);
        let window = self.window_at(found.window);
        let extents = extents(alloc, found, window, reach.h, reach.len as u32)?;
        let endpoints = endpoints_by_slot(alloc, found)?;
        Ok(Reply::Extents(Extents {
            extents: FixedList::new(extents),
            endpoints,
        }))
    }

    /// How many bytes of a range lie on each slot. Takes memory for the slots' endpoints alone.
    pub(crate) fn spread(&self, alloc: Global, reach: Reach) -> Result<Reply, Memory>
        requires stands { (m : Machine) × StandsFor self.now m × IsMachine m }
        requires some { 1 ≤ reach.len }
        ensures tells { IfOk result (λ reply. (m : Machine) → StandsFor self.now m → IsMachine m
            → spread_answer m reach ≡ stays m reply) }
        ensures outright { OwesRefusal self.now (commands.Spread reach) result }
    {
        regions_lie_in_windows();
        let place = match self.place_within(reach.h, reach.len) {
            Ok(place) => place,
            Err(refusal) => return Ok(refusal),
        };
        let found = self.found_at(place);
        let endpoints = endpoints_by_slot(alloc, found)?;
        let bytes = spread(found, self.window_at(found.window), reach.h, reach.len);
        Ok(Reply::Spread(Spread { bytes, endpoints }))
    }

    /// Which host address goes to a byte of a device: the one that a live region carries there.
    pub(crate) fn up(&self, up: Up) -> Reply
        requires { (m : Machine) × StandsFor self.now m × IsMachine m }
        ensures { (m : Machine) → StandsFor self.now m → IsMachine m → AnswersUp m up (stays m result) }
    {
        match self.topo.endpoint(&up.endpoint) {
            Some(endpoint) => self.told_host(endpoint, up.dpa),
            None => Reply::NoEndpoint(up.endpoint),
        }
    }

    /// Makes a reply that of which host address goes to a byte of a device, in a function that stays one, as above.
    #[inline(never)]
    pub(crate) fn put_up(&self, up: Up, reply: &mut Reply)
        requires { (m : Machine) × StandsFor self.now m × IsMachine m }
        ensures { (m : Machine) → StandsFor self.now m → IsMachine m → AnswersUp m up (stays m reply.new) }
    {
        put_reply(reply, self.up(up));
    }

    /// What a byte of an endpoint's device is answered, by the live regions that its decoders serve.
    fn told_host(&self, endpoint: u32, dpa: u64) -> Reply
        requires { (m : Machine) × StandsFor self.now m × IsMachine m }
        ensures { (m : Machine) → StandsFor self.now m → IsMachine m → TellsHost m endpoint dpa result }
    {
        live_regions_stay();
        slots_are_endpoints();
        if endpoint >= self.image.count() {
            return Reply::Unmapped;
        }
        let block = self.image.block(endpoint);
        for i in 0..block.count() {
            if let Some(reply) = self.told_through(block.decoder(i), endpoint, dpa) {
                return reply;
            }
        }
        Reply::Unmapped
    }

    /// What a byte of an endpoint's device is answered by the live region that a decoder serves, where that carries a
    /// host byte there.
    fn told_through(&self, decoder: Decoder, endpoint: u32, dpa: u64) -> Option<Reply>
        requires { (m : Machine) × StandsFor self.now m × IsMachine m }
        ensures some { IfSome result (λ reply. (m : Machine) → StandsFor self.now m → IsMachine m
            → TellsHost m endpoint dpa reply) }
        ensures none { IfNone result ((m : Machine) → StandsFor self.now m → IsMachine m
            → decoder.committed ≡ true → HasNoneOf m decoder.base endpoint dpa) }
    {
        if !decoder.committed {
            return None;
        }
        self.told_by(decoder.base, endpoint, dpa)
    }

    /// What a byte of an endpoint's device is answered by the region of this base, where that carries a host byte there.
    fn told_by(&self, base: u64, endpoint: u32, dpa: u64) -> Option<Reply>
        requires { (m : Machine) × StandsFor self.now m × IsMachine m }
        ensures some { IfSome result (λ reply. (m : Machine) → StandsFor self.now m → IsMachine m
            → TellsHost m endpoint dpa reply) }
        ensures none { IfNone result ((m : Machine) → StandsFor self.now m → IsMachine m
            → HasNoneOf m base endpoint dpa) }
    {
        regions_lie_in_windows();
        regions_share_no_byte();
        let place = self.place_of_host(base)?;
        let weave = self.kept_at(place).weave();
        let h = carried_address(self.found_at(place), weave, endpoint, dpa)?;
        let name = self.name_at(place);
        Some(Reply::Up(Upped { h, name }))
    }
}

/// Makes a reply that of the bytes of a region that a load asks for: in its list, where that has as many and they lie in one
/// piece, or else in one of their own, for which it takes memory.
fn put_loaded<M: Media>(
    alloc: Global,
    media: &M,
    found: &Found,
    weave: &Weave,
    load: Load,
    reply: &mut Reply,
) -> Result<(), Memory>
    requires region { IsWovenSomewhere found.now weave.now }
    requires some { 1 ≤ load.len }
    requires few { load.len ≤ access_limit }
    requires from { found.now.base ≤ load.h }
    requires ends { load.h + load.len ≤ found.now.base + found.now.size }
    ensures { OnOk result ((s : System) (w : WindowFields) (contents : Contents)
        → IsWovenIn s w found.now weave.now → HasPieces found.now w contents (M.state media.now).blocks
        → reply.new ≡ replies.Loaded (bytes_at contents (load.h - found.now.base) load.len)) }
{
    if let Reply::Loaded(bytes) = reply {
        let len = load.len as usize;
        if bytes.items().len() == len && first_part(load.h - found.base, len) == len {
            refill(media, found, weave, load, bytes);
            return Ok(());
        }
    }
    let bytes = load_bytes(alloc, media, found, weave, load)?;
    put_reply(reply, Reply::Loaded(bytes));
    Ok(())
}

/// Puts the bytes that a load asks for, of one of a region's pieces, in the place of as many.
fn refill<M: Media>(media: &M, found: &Found, weave: &Weave, load: Load, bytes: &mut FixedList<u8>)
    requires region { IsWovenSomewhere found.now weave.now }
    requires same { length bytes.old ≡ load.len }
    requires few { load.len ≤ access_limit }
    requires from { found.now.base ≤ load.h }
    requires ends { load.h + load.len ≤ found.now.base + found.now.size }
    requires piece { IsInOneBlock (load.h - found.now.base) load.len }
    ensures { (s : System) (w : WindowFields) (contents : Contents)
        → IsWovenIn s w found.now weave.now → HasPieces found.now w contents (M.state media.now).blocks
        → bytes.new ≡ bytes_at contents (load.h - found.now.base) load.len }
{
    let mut room = [0; 256];
    let part = &mut room[..load.len as usize];
    read_part(media, found, weave, load.h, part);
    bytes.replace_all(part);
}

/// What a host byte of the region of this name is answered.
fn down_details(h: u64, name: Name, kept: &Kept) -> Downed
    requires { IsKeptOf kept.now h }
    ensures { (m : Machine) (region : Live) → IsSystem m.settled
        → IsRegionIn m.settled (region_window m.settled region.found) region.found
        → IsKeptIn m.settled region.found kept.now → has_host region.found h ≡ true → name ≡ region.name
        → result ≡ downed m h region }
{
    regions_lie_in_windows();
    chain_is_the_dealing();
    let route = kept.route(h);
    let dealt = deal(kept.weave(), h);
    Downed {
        h,
        name,
        slot: dealt.slot,
        position: route.position,
        len: route.len,
        via: vias(&route.steps),
        endpoint: route.endpoint,
        dpa: route.dpa,
    }
}

/// The steps of a route as ports on an address's way.
fn vias(steps: &[Step; 5]) -> [Via; 5]
    ensures value { result ≡ map via_of steps.now }
    ensures five { length steps.now ≡ 5 }
{
    steps.map(|step| Via {
        node: step.node,
        decoder: step.decoder,
        entry: step.entry,
    })
}
