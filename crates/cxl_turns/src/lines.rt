//! The lines of a script, carried out one after the other.

ghost use Rattle.std.specs.Prelude.{◌≡◌, ◌≤◌, List};
ghost use Rattle.cxl_io.specs.Reader.{fresh_reader};
ghost use Rattle.cxl_machine.specs.Scripts.{Asked, Turn};
ghost use Rattle.cxl_session.specs.Standing.{Stands, ForEachMachine};
ghost use Rattle.cxl_turns.specs.Endings.{EndsLines};
ghost use Rattle.cxl_turns.specs.Going.{HasGoneOn};
ghost use Rattle.cxl_turns.specs.inner.Moments.{IsEnd};

use crate::carrying_out::{carry_out_line, tell_bad_line};
use crate::endings::Ending;
use crate::stops::LineStop;
use cxl_bus::Regs;
use cxl_io::{LineReader, Lines, Sink, Source, Taken};
use cxl_media::Roll;
use cxl_reply::Reply;
use cxl_script::{BadLine, LINE_LIMIT, Why};
use cxl_session::Session;
use std::alloc::Global;

/// What a line of more than 4,096 bytes is answered.
const LONG: BadLine = BadLine {
    at: LINE_LIMIT as u32,
    why: Why::Long,
};

/// Carries out the lines of a script, and writes each reply before the next line is carried out. Registers and media hold
/// what the last call on this session left in them. A line that asks for nothing is passed over, and a bad line is answered by
/// its first fault. After `Memory` session, registers and media are as the lines before the one that met it left them. (This
/// project's rule.) Takes memory.
pub fn carry_out_lines<S: Source, K: Sink, R: Regs, M: Roll>(
    alloc: Global,
    session: &mut Session,
    script: &mut S,
    out: &mut K,
    regs: &mut R,
    media: &mut M,
) -> Ending
    requires { Stands session.old (R.state regs.old) (M.state media.old) }
    // What the first lines of the script ask for was answered, line by line, and their replies are what is written.
    // It ends at the script's end, where the source failed or had too much, where the sink failed in a reply, or
    // where memory ran out, in which no fault of source or sink is hidden.
    ensures ends { ForEachMachine session.old (R.state regs.old) (M.state media.old) (λ m. (asked : List Asked) × (turns : List Turn)
        × HasGoneOn m asked turns session.new (R.state regs.old) (R.state regs.new) (M.state media.new)
        × EndsLines m.settled.nodes asked turns (S.state script.old) (S.state script.new)
        (K.state out.old) (K.state out.new) result) }
    ensures source { (S.state script.old).faults ≤ (S.state script.new).faults }
    ensures sink { (K.state out.old).faults ≤ (K.state out.new).faults }
    ensures bus { (R.state regs.old).faults ≤ (R.state regs.new).faults }
{
    let mut reader = match LineReader::new(alloc) {
        Ok(reader) => reader,
        Err(_memory) => return Ending::Memory,
    };
    let mut reply = Reply::NothingPending;
    let mut replies = Lines::new(alloc);
    let ending = carry_out_read(
        alloc,
        session,
        &mut reader,
        script,
        &mut reply,
        &mut replies,
        out,
        regs,
        media,
    );
    // a call lets a reply go, of whatever kind, which is proved once
    drop(reply);
    ending
}

/// Carries out the lines that a reader takes of a script, from its first one on.
fn carry_out_read<S: Source, K: Sink, R: Regs, M: Roll>(
    alloc: Global,
    session: &mut Session,
    reader: &mut LineReader,
    script: &mut S,
    reply: &mut Reply,
    lines: &mut Lines<0>,
    out: &mut K,
    regs: &mut R,
    media: &mut M,
) -> Ending
    requires stands { Stands session.old (R.state regs.old) (M.state media.old) }
    requires fresh { reader.old ≡ fresh_reader }
    ensures { IsEnd
        record { session = session.old; regs = R.state regs.old; media = M.state media.old; script = S.state script.old; sink = K.state out.old }
        record { session = session.new; regs = R.state regs.new; media = M.state media.new; script = S.state script.new; sink = K.state out.new }
        result }
{
    'lines: loop {
        let carried = match reader.next(script) {
            Taken::Line => carry_out_line(
                alloc,
                session,
                reader.line(),
                reply,
                lines,
                out,
                regs,
                media,
            ),
            Taken::Long => tell_bad_line(LONG, session, lines, out),
            Taken::End => return Ending::Done,
            Taken::Fault => return Ending::ReadFault,
            Taken::TooMuch => return Ending::TooMuch,
        };
        match carried {
            Ok(()) => {}
            Err(LineStop::Sink) => return Ending::WriteFault,
            Err(LineStop::Memory) => return Ending::Memory,
        }
    }
}
