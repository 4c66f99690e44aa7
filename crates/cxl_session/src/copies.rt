//! Giving a region the bytes of another, by the pieces that media has of it.

ghost use Rattle.std.specs.Prelude.{◌≡◌, ℕ, ◌+◌, ◌<◌, ◌≤◌, true, List, length, slice_get, IfOk, IfSome, IsSomeAnd, OnErr};
ghost use Rattle.cxl_enc.specs.Limits.{frame_limit};
ghost use Rattle.cxl_window.specs.Fields.{WindowFields};
ghost use Rattle.cxl_script.specs.declared.command.Command.TheVariants as commands;
ghost use Rattle.cxl_script.specs.declared.command.Pair.{Pair};
ghost use Rattle.cxl_media.specs.MediaState.{MediaState, frame_count};
ghost use Rattle.cxl_model.specs.declared.found.Found.{Found};
ghost use Rattle.cxl_model.specs.System.{System, IsSystem};
ghost use Rattle.cxl_model.specs.Regions.{IsRegionIn};
ghost use Rattle.cxl_move.specs.Sides.{AreHeld, AreSides, IsMoved, IsCopied};
ghost use Rattle.cxl_reply.specs.declared.reply.Reply.TheVariants as replies;
ghost use Rattle.cxl_machine.specs.Machine.{Live, Machine};
ghost use Rattle.cxl_machine.specs.Replies.{is_refusal};
ghost use Rattle.cxl_machine.specs.Copies.{copy_answer, move_answer};
ghost use Rattle.cxl_machine.specs.Sound.{IsMachine};
ghost use Rattle.cxl_session.specs.State.{SessionState};
ghost use Rattle.cxl_session.specs.Standing.{StandsFor};
ghost use Rattle.cxl_session.specs.Outright.{OwesRefusal};
ghost use Rattle.cxl_session.specs.inner.Answering.{HoldsMachine, HoldsSome, IsWrittenAs, IsWrittenFor};
ghost use Rattle.cxl_session.specs.inner.Pairs.{IsSideAt, AreTwo, AreForTwo};
ghost use Rattle.cxl_session.specs.inner.Places.{StandsAt, IsNamedAt};

use crate::session::Session;
use cxl_enc::{Memory, Name, place_among};
use cxl_machine::accesses_keep_machines;
use cxl_media::Roll;
use cxl_model::{Found, regions_share_no_byte};
use cxl_move::{
    Side, blocks_are_pieces, carried_pieces_are_contents, copy_bytes, held, move_bytes,
};
use cxl_reply::{Carried, Lack, Reply, Sizes};
use cxl_script::Pair;
use std::alloc::Global;

impl Session {
    /// Gives a region the bytes of another, and leaves that one zero. Takes memory, all of it before the first write.
    pub(crate) fn move_region<M: Roll>(
        &self,
        alloc: Global,
        pair: &Pair,
        media: &mut M,
    ) -> Result<Reply, Memory>
        requires { HoldsSome self.now (M.state media.old) }
        ensures answer { IfOk result (λ reply.
            IsWrittenFor self.now (M.state media.old) (M.state media.new) (λ m. move_answer m pair.now) reply) }
        ensures outright { OwesRefusal self.now (commands.Move pair.now) result }
        ensures refused { IfOk result (λ reply. is_refusal reply ≡ true → M.state media.new ≡ M.state media.old) }
        ensures memory { OnErr result (M.state media.new ≡ M.state media.old) }
    {
        sides_hold_pieces();
        copied_pieces_are_answers();
        let (first, second) = match self.two_places(pair) {
            Ok(places) => places,
            Err(refusal) => return Ok(refusal),
        };
        let from = self.side(first);
        let to = self.side(second);
        let pieces = held(alloc, media, &from)?;
        move_bytes(media, &from, &to, &pieces);
        Ok(Reply::Moved(pair_details(pair, &pieces)))
    }

    /// Gives a region the bytes of another. Takes memory, all of it before the first write.
    pub(crate) fn copy_region<M: Roll>(
        &self,
        alloc: Global,
        pair: &Pair,
        media: &mut M,
    ) -> Result<Reply, Memory>
        requires { HoldsSome self.now (M.state media.old) }
        ensures answer { IfOk result (λ reply.
            IsWrittenFor self.now (M.state media.old) (M.state media.new) (λ m. copy_answer m pair.now) reply) }
        ensures outright { OwesRefusal self.now (commands.Copy pair.now) result }
        ensures refused { IfOk result (λ reply. is_refusal reply ≡ true → M.state media.new ≡ M.state media.old) }
        ensures memory { OnErr result (M.state media.new ≡ M.state media.old) }
    {
        sides_hold_pieces();
        copied_pieces_are_answers();
        let (first, second) = match self.two_places(pair) {
            Ok(places) => places,
            Err(refusal) => return Ok(refusal),
        };
        let from = self.side(first);
        let to = self.side(second);
        let others = held_count(alloc, media, &to)?;
        let free = media.free() + others;
        let pieces = held(alloc, media, &from)?;
        if pieces.len() as u32 > free {
            return Ok(Reply::Full(Lack {
                need: pieces.len() as u32,
                free,
            }));
        }
        copy_bytes(media, &from, &to, &pieces);
        Ok(Reply::Copied(pair_details(pair, &pieces)))
    }

    /// The places of two live regions of one size, by their names; or why there are none.
    fn two_places(&self, pair: &Pair) -> Result<(usize, usize), Reply>
        ensures { (m : Machine) → StandsFor self.now m → AreForTwo self.now m pair.now result }
    {
        let Some(first) = self.place_of_name(&pair.from) else {
            return Err(Reply::NoRegion(pair.from));
        };
        let Some(second) = self.place_of_name(&pair.to) else {
            return Err(Reply::NoRegion(pair.to));
        };
        if pair.from.is_same(&pair.to) {
            return Err(Reply::SameRegion(pair.from));
        }
        let from = self.found_at(first).size;
        let to = self.found_at(second).size;
        if from != to {
            return Err(Reply::SizesDiffer(Sizes { from, to }));
        }
        Ok((first, second))
    }

    /// The place of the live region of a name.
    pub(crate) fn place_of_name(&self, name: &Name) -> Option<usize>
        ensures named { (m : Machine) → StandsFor self.now m → IsNamedAt self.now m name.now result }
        ensures within { IfSome result (λ place. place < length self.now.founds) }
    {
        place_among(&self.names, name)
    }

    /// The live region at a place, with its window.
    fn side(&self, place: usize) -> Side<'_>
        requires { IsSomeAnd (slice_get self.now.founds place) (λ found. found.window < length self.now.windows) }
        ensures { IsSideAt self.now place result.found.now result.window.now }
    {
        let found = self.found_at(place);
        let window = &self.windows[found.window as usize];
        Side { found, window }
    }
}

/// How many pieces media has of a region. Takes memory.
fn held_count<M: Roll>(alloc: Global, media: &M, side: &Side<'_>) -> Result<u32, Memory>
    requires region { (s : System) × IsSystem s × IsRegionIn s side.now.window.now side.now.found.now }
    requires few { (pieces : List ℕ) → AreHeld side.now.found.now side.now.window.now (M.state media.now).blocks pieces
        → length pieces ≤ frame_limit }
    ensures { IfOk result (λ count. (pieces : List ℕ)
        × AreHeld side.now.found.now side.now.window.now (M.state media.now).blocks pieces × (count ≡ length pieces)) }
{
    let pieces = held(alloc, media, side)?;
    Ok(pieces.len() as u32)
}

/// What is told of so many pieces.
fn pair_details(pair: &Pair, pieces: &[u64]) -> Carried
    requires { length pieces.now ≤ frame_limit }
    ensures { result ≡ record { from = pair.now.from; to = pair.now.to; pieces = length pieces.now } }
{
    Carried {
        from: pair.from,
        to: pair.to,
        pieces: pieces.len() as u32,
    }
}

/// A law of sides: two regions of a machine are sides of a move, and of each the pieces that media has fit into its frames.
fn sides_hold_pieces()
    ensures sides { (session : SessionState) (m : Machine) (pair : Pair) (first second : ℕ) (from to : Found)
        (v w : WindowFields) → StandsFor session m → IsMachine m → AreTwo session m pair first second
        → IsSideAt session first from v → IsSideAt session second to w → AreSides from v to w }
    ensures few { (session : SessionState) (media : MediaState) (m : Machine) (region : Live) (place : ℕ) (found : Found)
        (w : WindowFields) (pieces : List ℕ) → HoldsMachine session media m → StandsAt session m place region
        → IsSideAt session place found w → AreHeld found w media.blocks pieces
        → media.free + length pieces ≤ frame_limit }
{
    regions_share_no_byte();
    blocks_are_pieces();
}

/// A law of copies and moves: where the pieces of one region are copied to another, session and media hold the machine
/// that the names are answered by.
fn copied_pieces_are_answers()
    ensures moved { (session : SessionState) (old new : MediaState) (m : Machine) (pair : Pair) (first second : ℕ)
        (from to : Found) (v w : WindowFields) (pieces : List ℕ) → HoldsMachine session old m
        → AreTwo session m pair first second → IsSideAt session first from v → IsSideAt session second to w
        → AreHeld from v old.blocks pieces → IsMoved from v to w old.blocks new.blocks
        → frame_count new ≡ frame_count old → IsWrittenAs session new (move_answer m pair)
        (replies.Moved record { from = pair.from; to = pair.to; pieces = length pieces }) }
    ensures copied { (session : SessionState) (old new : MediaState) (m : Machine) (pair : Pair) (first second : ℕ)
        (from to : Found) (v w : WindowFields) (pieces others : List ℕ) → HoldsMachine session old m
        → AreTwo session m pair first second → IsSideAt session first from v → IsSideAt session second to w
        → AreHeld from v old.blocks pieces → AreHeld to w old.blocks others → length pieces ≤ old.free + length others
        → IsCopied from v to w old.blocks new.blocks → frame_count new ≡ frame_count old
        → IsWrittenAs session new (copy_answer m pair)
        (replies.Copied record { from = pair.from; to = pair.to; pieces = length pieces }) }
    ensures full { (session : SessionState) (old : MediaState) (m : Machine) (pair : Pair) (first second : ℕ)
        (from to : Found) (v w : WindowFields) (pieces others : List ℕ) → HoldsMachine session old m
        → AreTwo session m pair first second → IsSideAt session first from v → IsSideAt session second to w
        → AreHeld from v old.blocks pieces → AreHeld to w old.blocks others → old.free + length others < length pieces
        → IsWrittenAs session old (copy_answer m pair)
        (replies.Full record { need = length pieces; free = old.free + length others }) }
{
    accesses_keep_machines();
    blocks_are_pieces();
    carried_pieces_are_contents();
}
