//! One line of a script, carried out.

ghost use Rattle.std.specs.Prelude.{◌≤◌, ◌∷◌, [], Ok, Err};
ghost use Rattle.cxl_bus.specs.RegsState.{RegsState};
ghost use Rattle.cxl_media.specs.MediaState.{MediaState};
ghost use Rattle.cxl_script.specs.Grammar.{IsRanged};
ghost use Rattle.cxl_machine.specs.Machine.{Machine};
ghost use Rattle.cxl_machine.specs.Scripts.{lines_asked};
ghost use Rattle.cxl_session.specs.Standing.{IsAt, Stands, ForEachMachine};
ghost use Rattle.cxl_turns.specs.inner.CarriedOut.{IsCarriedOut};

use crate::replies::write_reply;
use crate::stops::LineStop;
use cxl_bus::Regs;
use cxl_enc::Memory;
use cxl_io::{Lines, Sink};
use cxl_machine::answers_are_told;
use cxl_media::Roll;
use cxl_reply::Reply;
use cxl_script::{BadLine, Command, LineFault, asked_commands_are_ranged, read_command};
use cxl_session::Session;
use std::alloc::Global;

/// Carries out a line, and writes its reply, where it asks for something. The reply is put in the place of an earlier one.
pub(crate) fn carry_out_line<K: Sink, R: Regs, M: Roll>(
    alloc: Global,
    session: &mut Session,
    line: &[u8],
    reply: &mut Reply,
    lines: &mut Lines<0>,
    out: &mut K,
    regs: &mut R,
    media: &mut M,
) -> Result<(), LineStop>
    requires { Stands session.old (R.state regs.old) (M.state media.old) }
    ensures carried { ForEachMachine session.old (R.state regs.old) (M.state media.old) (λ m.
        IsCarriedOut m (lines_asked (line.now ∷ [])) session.new (R.state regs.old) (R.state regs.new) (M.state media.new)
        (K.state out.old) (K.state out.new) result) }
    ensures sink { (K.state out.old).faults ≤ (K.state out.new).faults }
    ensures bus { (R.state regs.old).faults ≤ (R.state regs.new).faults }
{
    asked_commands_are_ranged();
    match read_command(alloc, line) {
        Ok(None) => Ok(()),
        Ok(Some(command)) => {
            let carried = carry_out_command(
                alloc, session, &command, reply, lines, out, regs, media,
            );
            drop(command);
            carried
        }
        Err(LineFault::Bad(fault)) => tell_bad_line(fault, session, lines, out),
        Err(LineFault::Memory) => Err(LineStop::Memory),
    }
}

/// Carries out a command, and writes its reply.
fn carry_out_command<K: Sink, R: Regs, M: Roll>(
    alloc: Global,
    session: &mut Session,
    command: &Command,
    reply: &mut Reply,
    lines: &mut Lines<0>,
    out: &mut K,
    regs: &mut R,
    media: &mut M,
) -> Result<(), LineStop>
    requires stands { Stands session.old (R.state regs.old) (M.state media.old) }
    requires ranged { IsRanged command.now }
    ensures carried { ForEachMachine session.old (R.state regs.old) (M.state media.old) (λ m.
        IsCarriedOut m (Ok command.now ∷ []) session.new (R.state regs.old) (R.state regs.new) (M.state media.new)
        (K.state out.old) (K.state out.new) result) }
    ensures sink { (K.state out.old).faults ≤ (K.state out.new).faults }
    ensures bus { (R.state regs.old).faults ≤ (R.state regs.new).faults }
{
    answers_are_told();
    match session.act_into(alloc, command, reply, regs, media) {
        Ok(()) => write_reply(reply, session.topo(), lines, out),
        Err(Memory) => Err(LineStop::Memory),
    }
}

/// Writes the reply to a line that asks for nothing.
pub(crate) fn tell_bad_line<K: Sink>(
    fault: BadLine,
    session: &Session,
    lines: &mut Lines<0>,
    out: &mut K,
) -> Result<(), LineStop>
    ensures carried { (m : Machine) (regs : RegsState) (media : MediaState) → IsAt session.now regs media m
        → IsCarriedOut m (Err fault ∷ []) session.now regs regs media (K.state out.old) (K.state out.new) result }
    ensures sink { (K.state out.old).faults ≤ (K.state out.new).faults }
{
    let reply = Reply::BadLine(fault);
    let told = write_reply(&reply, session.topo(), lines, out);
    drop(reply);
    told
}
