//! Storing bytes into a live region: each part is put into its block, once the frames that all parts need are free.

ghost use Rattle.std.specs.Prelude.{◌≡◌, ◌≢◌, ℕ, ◌+◌, ◌-◌, ◌%◌, ◌≤◌, true, List, ◌++◌, length, Some};
ghost use Rattle.cxl_script.specs.declared.command.Command.TheVariants as commands;
ghost use Rattle.cxl_script.specs.declared.command.Store.{Store};
ghost use Rattle.cxl_script.specs.Grammar.{IsRanged};
ghost use Rattle.cxl_media.specs.Blocks.{key_of, IsInOneBlock};
ghost use Rattle.cxl_media.specs.MediaState.{MediaState};
ghost use Rattle.cxl_window.specs.Fields.{WindowFields};
ghost use Rattle.cxl_model.specs.declared.found.Found.{Found};
ghost use Rattle.cxl_model.specs.System.{System, IsSystem};
ghost use Rattle.cxl_model.specs.Regions.{IsRegionIn, Carries};
ghost use Rattle.cxl_reply.specs.declared.reply.Reply.{Reply};
ghost use Rattle.cxl_machine.specs.Machine.{Live, Machine, live_at, region_window};
ghost use Rattle.cxl_move.specs.Bytes.{AreBytes};
ghost use Rattle.cxl_machine.specs.Replies.{is_refusal, ends_within};
ghost use Rattle.cxl_machine.specs.Accesses.{offset_in, store_answer, store_into};
ghost use Rattle.cxl_session.specs.State.{SessionState};
ghost use Rattle.cxl_session.specs.inner.Answering.{HoldsMachine, HoldsSome, IsWrittenAs, IsWrittenFor};
ghost use Rattle.cxl_move.specs.Puts.{PutsOne, PutsTwo};

use crate::session::Session;
use cxl_media::Media;
use cxl_model::{regions_lie_in_windows, weaves_fill_their_regions};
use cxl_move::{
    blocks_are_pieces, blocks_hold_their_pieces, bytes_lie_in_pieces, device_byte, first_part,
    pieces_are_carried_to_blocks, put_one, put_pieces_are_contents, put_two,
};
use cxl_reply::Reply;
use cxl_script::Store;

impl Session {
    /// Writes bytes from a host address on. Takes no memory.
    pub(crate) fn store<M: Media>(&self, store: &Store, media: &mut M) -> Reply
        requires holds { HoldsSome self.now (M.state media.old) }
        requires ranged { IsRanged (commands.Store store.now) }
        ensures answer { IsWrittenFor self.now (M.state media.old) (M.state media.new)
            (λ m. store_answer m store.now) result }
        ensures refused { is_refusal result ≡ true → M.state media.new ≡ M.state media.old }
    {
        regions_lie_in_windows();
        parts_are_answers();
        let bytes = store.bytes.items();
        let place = match self.place_within(store.h, bytes.len() as u64) {
            Ok(place) => place,
            Err(refusal) => return refusal,
        };
        let found = self.found_at(place);
        let weave = self.kept_at(place).weave();
        let (front, back) = bytes.split_at(first_part(store.h - found.base, bytes.len()));
        let first = device_byte(found, weave, store.h);
        if back.is_empty() {
            return put_one(media, first, bytes);
        }
        let second = device_byte(found, weave, store.h + front.len() as u64);
        put_two(media, first, front, second, back)
    }
}

/// A law of stores: where bytes of a live region are put into the block of their piece, or in two parts into those of two
/// pieces, session and media hold the machine that answers the store. Bytes of one piece lie in one block, and those of the
/// next piece in another.
fn parts_are_answers()
    ensures within { (s : System) (w : WindowFields) (found : Found) (h ep dpa len : ℕ) → IsSystem s
        → IsRegionIn s w found → Carries found w h ep dpa → 1 ≤ len → (h - found.base) % 256 + len ≤ 256
        → IsInOneBlock dpa len }
    ensures apart { (s : System) (w : WindowFields) (found : Found) (h k ep dpa other place : ℕ) → IsSystem s
        → IsRegionIn s w found → Carries found w h ep dpa → Carries found w (h + k) other place
        → (h - found.base) % 256 + k ≡ 256 → key_of ep dpa ≢ key_of other place }
    ensures one { (session : SessionState) (old new : MediaState) (m : Machine) (store : Store) (region : Live)
        (ep dpa : ℕ) (reply : Reply) → HoldsMachine session old m → live_at m store.h ≡ Some region
        → ends_within region.found store.h (length store.bytes) ≡ true → AreBytes store.bytes
        → Carries region.found (region_window m.settled region.found) store.h ep dpa
        → IsInOneBlock dpa (length store.bytes) → PutsOne ep dpa store.bytes old new reply
        → IsWrittenAs session new (store_into m store region) reply }
    ensures two { (session : SessionState) (old new : MediaState) (m : Machine) (store : Store) (region : Live)
        (ep dpa other place : ℕ) (front back : List ℕ) (reply : Reply) → HoldsMachine session old m
        → live_at m store.h ≡ Some region → ends_within region.found store.h (length store.bytes) ≡ true
        → AreBytes store.bytes → store.bytes ≡ front ++ back
        → offset_in region store.h % 256 + length front ≡ 256 → 1 ≤ length back → length store.bytes ≤ 256
        → Carries region.found (region_window m.settled region.found) store.h ep dpa
        → Carries region.found (region_window m.settled region.found) (store.h + length front) other place
        → PutsTwo ep dpa front other place back old new reply
        → IsWrittenAs session new (store_into m store region) reply }
{
    blocks_are_pieces();
    blocks_hold_their_pieces();
    put_pieces_are_contents();
    weaves_fill_their_regions();
    bytes_lie_in_pieces();
    pieces_are_carried_to_blocks();
}
