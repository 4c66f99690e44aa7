//! A session over the caller's files, told of behind a script: the words that its last line sent, and its image.

ghost use Rattle.std.specs.Prelude.{◌≡◌, None, Some, [], List, IfOk, OnOk};
ghost use Rattle.cxl_held.specs.Sessions.{IsKept, IsHeldAt};
ghost use Rattle.cxl_io.specs.Lines.{lines_of};
ghost use Rattle.cxl_machine.specs.Machine.{Machine};
ghost use Rattle.cxl_machine.specs.Scripts.{Turn, lines_asked};
ghost use Rattle.cxl_machine.specs.Turns.{AreTurns, machine_after, words_sent, failed_in};
ghost use Rattle.cxl_opening.specs.Opening.{endpoints_in, enabling};
ghost use Rattle.cxl_reads.specs.Answers.{ComesTo, IsAnswered, image_name};
ghost use Rattle.cxl_shell.specs.commands.Script.{script_stopped};
ghost use Rattle.cxl_turns.specs.declared.endings.Ending.TheVariants.{TooMuch};
ghost use Rattle.cxl_library.specs.Behind.{word_lines, last_words, HasCarriedOutScript, IsTextOf, IsToldOver, IsToldBehind};

use crate::last_line::last_line;
use crate::slice_source::SliceSource;
use crate::slices::{CEDT, IMAGE, Slices, TOPOLOGY};
use crate::unheard::Unheard;
use crate::word_lines::put_words;
use cxl_enc::Memory;
use cxl_held::{Held, ROOM};
use cxl_inputs::{Outcome, Status, Stop, finish};
use cxl_io::{SCRIPT_LIMIT, Sink};
use std::alloc::Global;

/// Which text of a session is asked for.
#[derive(Clone, Copy, PartialEq, Eq)]
pub enum HeldText {
    /// The register words that the last line of the script sent, a line each.
    Words,
    /// The file of its register image.
    Image,
}

/// Opens a session on the host after reset, carries out a script, and writes a text of it.
pub(crate) fn told_from_reset<K: Sink>(
    alloc: Global,
    of: HeldText,
    files: Slices<'_>,
    script: &[u8],
    out: &mut K,
) -> Status
    ensures { IsAnswered (IsToldBehind of files.entry None script.now) result (K.state out.old) (K.state out.new) }
{
    let mut files = files;
    match Held::open_from_reset(alloc, CEDT, TOPOLOGY, &mut files, out) {
        Ok(held) => finish(comes_to(alloc, of, held, script), out),
        Err(status) => status,
    }
}

/// The same on the host with the registers of an image.
pub(crate) fn told_from_image<K: Sink>(
    alloc: Global,
    of: HeldText,
    files: Slices<'_>,
    script: &[u8],
    out: &mut K,
) -> Status
    ensures { IsAnswered (IsToldBehind of files.entry (Some image_name) script.now) result (K.state out.old) (K.state out.new) }
{
    let mut files = files;
    match Held::open_from_image(alloc, CEDT, TOPOLOGY, IMAGE, &mut files, out) {
        Ok(held) => finish(comes_to(alloc, of, held, script), out),
        Err(status) => status,
    }
}

/// What a text of a session behind a script comes to. The session is let go.
fn comes_to(alloc: Global, of: HeldText, held: Held, script: &[u8]) -> Result<Outcome, Stop>
    requires { IsKept held }
    ensures { (first : Machine) → IsHeldAt held first → held.regs.trail ≡ enabling (endpoints_in first.settled.nodes)
        → ComesTo (IsToldOver of first script.now) result }
{
    if script.len() > SCRIPT_LIMIT {
        drop(held);
        return Ok(too_long());
    }
    match text_behind(alloc, of, held, script) {
        Ok(text) => Ok(Outcome::made(Status::Done, text)),
        Err(Memory) => Err(Stop::Memory),
    }
}

/// A text of a session behind a script. The session is let go.
fn text_behind(alloc: Global, of: HeldText, held: Held, script: &[u8]) -> Result<Vec<u8>, Memory>
    requires { IsKept held }
    ensures { (first : Machine) → IsHeldAt held first → held.regs.trail ≡ enabling (endpoints_in first.settled.nodes)
        → IfOk result (λ text. (last : Machine) × (turns : List Turn) × HasCarriedOutScript first script.now last turns
        × IsTextOf of last (last_words script.now last.settled.nodes turns) text.items) }
{
    let after = behind_script(alloc, held, script)?;
    let text = text_of(alloc, of, &after);
    // a call lets a session go part by part, which is proved once
    drop(after);
    text
}

/// The session behind a script, which tells what its last line sent.
fn behind_script(alloc: Global, held: Held, script: &[u8]) -> Result<Held, Memory>
    requires kept { IsKept held }
    ensures kept { IfOk result IsKept }
    ensures answered { IfOk result (λ after. (first : Machine) → IsHeldAt held first
        → held.regs.trail ≡ enabling (endpoints_in first.settled.nodes) → (last : Machine) × (turns : List Turn)
        × HasCarriedOutScript first script.now last turns × IsHeldAt after last
        × (after.regs.trail ≡ last_words script.now last.settled.nodes turns)) }
{
    if script.is_empty() {
        return Ok(held);
    }
    let (earlier, last) = script.split_at(last_line(script));
    let between = behind_lines(alloc, held, earlier)?;
    behind_last(alloc, between, last)
}

/// The script has too many bytes.
fn too_long() -> Outcome
    ensures { result ≡ script_stopped TooMuch }
{
    Outcome::fixed(Status::TooMuch, "error: script too long\n")
}

/// The session behind lines, whose replies and words nobody reads.
fn behind_lines(alloc: Global, held: Held, lines: &[u8]) -> Result<Held, Memory>
    requires kept { IsKept held }
    ensures kept { IfOk result IsKept }
    ensures answered { IfOk result (λ after. (m : Machine) → IsHeldAt held m → (turns : List Turn)
        × AreTurns m (lines_asked (lines_of lines.now)) turns × IsHeldAt after (machine_after m turns)
        × (failed_in turns ≡ [])) }
{
    let mut source = SliceSource::new(lines);
    match held.pass(alloc, &mut source, &mut Unheard) {
        Ok(after) => Ok(after),
        Err(_) => Err(Memory),
    }
}

/// The session behind its last line, with the words that this sent. There is no memory for more of them than a session tells, and
/// no line sends so many.
fn behind_last(alloc: Global, held: Held, line: &[u8]) -> Result<Held, Memory>
    requires kept { IsKept held }
    ensures kept { IfOk result IsKept }
    ensures answered { IfOk result (λ after. (m : Machine) → IsHeldAt held m → (turns : List Turn)
        × AreTurns m (lines_asked (lines_of line.now)) turns × IsHeldAt after (machine_after m turns)
        × (after.regs.trail ≡ words_sent turns) × (failed_in turns ≡ [])) }
{
    let mut after = held;
    match carry_out_last(alloc, &mut after, line) {
        Ok(()) => Ok(after),
        Err(Memory) => {
            drop(after);
            Err(Memory)
        }
    }
}

/// Carries out the last line of a session.
fn carry_out_last(alloc: Global, held: &mut Held, line: &[u8]) -> Result<(), Memory>
    requires kept { IsKept held.old }
    ensures kept { OnOk result (IsKept held.new) }
    ensures answered { OnOk result ((m : Machine) → IsHeldAt held.old m → (turns : List Turn)
        × AreTurns m (lines_asked (lines_of line.now)) turns × IsHeldAt held.new (machine_after m turns)
        × (held.new.regs.trail ≡ words_sent turns) × (failed_in turns ≡ [])) }
{
    let mut source = SliceSource::new(line);
    let status = held.act(alloc, &mut source, &mut Unheard);
    if held.words().len() >= ROOM {
        return Err(Memory);
    }
    match status {
        Status::Done => Ok(()),
        _ => Err(Memory),
    }
}

/// A text of a session.
fn text_of(alloc: Global, of: HeldText, held: &Held) -> Result<Vec<u8>, Memory>
    requires { IsKept held.now }
    ensures { (m : Machine) → IsHeldAt held.now m → IfOk result (λ text. IsTextOf of m held.now.regs.trail text.items) }
{
    match of {
        HeldText::Words => words_text(alloc, held),
        HeldText::Image => held.image(alloc),
    }
}

/// The words that the last call on a session sent, as lines.
fn words_text(alloc: Global, held: &Held) -> Result<Vec<u8>, Memory>
    ensures { IfOk result (λ text. text.items ≡ word_lines held.now.regs.trail) }
{
    let mut text = Vec::new(alloc);
    put_words(&mut text, held.words())?;
    Ok(text)
}
