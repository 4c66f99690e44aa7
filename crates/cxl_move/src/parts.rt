//! Bytes of a region, cut where its pieces end, and where each part of them lies on a device.

ghost use Rattle.std.specs.Prelude.{◌≡◌, ℕ, ◌+◌, ◌-◌, ◌/◌, ◌%◌, ◌<◌, ◌≤◌, min, length, IfOk};
ghost use Rattle.cxl_window.specs.Fields.{WindowFields};
ghost use Rattle.cxl_media.specs.Blocks.{IsInOneBlock};
ghost use Rattle.cxl_script.specs.Grammar.{access_limit};
ghost use Rattle.cxl_model.specs.declared.found.Found.{Found};
ghost use Rattle.cxl_model.specs.Contents.{Contents};
ghost use Rattle.cxl_model.specs.Regions.{IsRegionIn, Carries};
ghost use Rattle.cxl_model.specs.System.{System, IsSystem};
ghost use Rattle.cxl_move.specs.Sides.{IsPieceAt};
ghost use Rattle.cxl_move.specs.Bytes.{bytes_at};
ghost use Rattle.cxl_move.specs.Woven.{IsWovenIn, IsWovenSomewhere, HasPieces};

use cxl_deal::{Weave, deal};
use cxl_enc::{FixedList, Memory};
use cxl_media::Media;
use cxl_model::{
    Found, bytes_are_carried_one_to_one, carries_where_chain_ends, pieces_are_carried_whole,
    regions_lie_in_windows, slots_are_endpoints, weaves_fill_their_regions,
};
use cxl_script::Load;
use std::alloc::Global;

/// A byte of an endpoint's device.
#[derive(Clone, Copy, PartialEq, Eq)]
pub struct DeviceByte {
    pub ep: u32,
    /// The device address.
    pub dpa: u64,
}

/// A law of regions: the piece in which a host byte lies is carried to the block in which that byte lies, as far behind
/// its start.
pub fn bytes_lie_in_pieces()
    ensures block { (s : System) (w : WindowFields) (found : Found) (h endpoint dpa : ℕ) → IsSystem s
        → IsRegionIn s w found → Carries found w h endpoint dpa
        → IsPieceAt found w ((h - found.base) / 256) endpoint (dpa / 256) }
    ensures offset { (s : System) (w : WindowFields) (found : Found) (h endpoint dpa : ℕ) → IsSystem s
        → IsRegionIn s w found → Carries found w h endpoint dpa → dpa % 256 ≡ (h - found.base) % 256 }
{
    pieces_are_carried_whole();
    bytes_are_carried_one_to_one();
    carries_where_chain_ends();
}

/// How many of so many bytes from an offset on lie in the first piece of 256.
pub fn first_part(offset: u64, len: usize) -> usize
    ensures { result ≡ min len (256 - offset % 256) }
{
    len.min(256 - (offset % 256) as usize)
}

/// The byte of a device to which a region carries a host byte.
pub fn device_byte(found: &Found, weave: &Weave, h: u64) -> DeviceByte
    requires region { IsWovenSomewhere found.now weave.now }
    requires from { found.now.base ≤ h }
    requires below { h < found.now.base + found.now.size }
    ensures { (s : System) (w : WindowFields) → IsWovenIn s w found.now weave.now
        → Carries found.now w h result.ep result.dpa }
{
    weaves_fill_their_regions();
    regions_lie_in_windows();
    slots_are_endpoints();
    bytes_are_carried_one_to_one();
    let dealt = deal(weave, h);
    let place = found.spans.items()[dealt.slot as usize];
    DeviceByte {
        ep: place.endpoint,
        dpa: place.start + dealt.offset,
    }
}

/// The bytes of a region that a load asks for, as its contents have them. Takes memory.
pub fn load_bytes<M: Media>(
    alloc: Global,
    media: &M,
    found: &Found,
    weave: &Weave,
    load: Load,
) -> Result<FixedList<u8>, Memory>
    requires region { IsWovenSomewhere found.now weave.now }
    requires some { 1 ≤ load.len }
    requires few { load.len ≤ access_limit }
    requires from { found.now.base ≤ load.h }
    requires ends { load.h + load.len ≤ found.now.base + found.now.size }
    ensures { IfOk result (λ bytes. (s : System) (w : WindowFields) (contents : Contents)
        → IsWovenIn s w found.now weave.now → HasPieces found.now w contents (M.state media.now).blocks
        → bytes ≡ bytes_at contents (load.h - found.now.base) load.len) }
{
    let mut bytes = vec![in alloc; 0; load.len as usize]?;
    read(media, found, weave, load.h, &mut bytes);
    Ok(FixedList::new(bytes))
}

/// Reads bytes of a region, at most 256, so they lie in two of its pieces or in one.
fn read<M: Media>(media: &M, found: &Found, weave: &Weave, h: u64, into: &mut [u8])
    requires region { IsWovenSomewhere found.now weave.now }
    requires some { 1 ≤ length into.old }
    requires few { length into.old ≤ access_limit }
    requires from { found.now.base ≤ h }
    requires ends { h + length into.old ≤ found.now.base + found.now.size }
    ensures { (s : System) (w : WindowFields) (contents : Contents)
        → IsWovenIn s w found.now weave.now → HasPieces found.now w contents (M.state media.now).blocks
        → into.new ≡ bytes_at contents (h - found.now.base) (length into.old) }
{
    regions_lie_in_windows();
    let first = first_part(h - found.base, into.len());
    let (front, back) = into.split_at_mut(first);
    read_part(media, found, weave, h, front);
    if !back.is_empty() {
        read_part(media, found, weave, h + first as u64, back);
    }
}

/// Reads bytes of a region that lie in one of its pieces.
pub fn read_part<M: Media>(media: &M, found: &Found, weave: &Weave, h: u64, into: &mut [u8])
    requires region { IsWovenSomewhere found.now weave.now }
    requires from { found.now.base ≤ h }
    requires ends { h + length into.old ≤ found.now.base + found.now.size }
    requires piece { IsInOneBlock (h - found.now.base) (length into.old) }
    ensures { (s : System) (w : WindowFields) (contents : Contents)
        → IsWovenIn s w found.now weave.now → HasPieces found.now w contents (M.state media.now).blocks
        → into.new ≡ bytes_at contents (h - found.now.base) (length into.old) }
{
    bytes_lie_in_pieces();
    let byte = device_byte(found, weave, h);
    media.get(byte.ep, byte.dpa, into);
}
