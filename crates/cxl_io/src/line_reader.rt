//! The lines of a source, one after the other, read in blocks.

ghost use Rattle.std.specs.Prelude.{◌≡◌, ◌≢◌, ℕ, ◌+◌, ◌<◌, ◌≤◌, ◌↔◌, ◌==◌, None, Some, List, [], ◌∷◌, ◌++◌, length, take, IsTrue, IfOk, OnErr, position, vec_len, vec_capacity};
ghost use Rattle.std.specs.Bool.{OnTrue, OnFalse};
ghost use Rattle.std.specs.Str.Lines.{strip_carriage_return};
ghost use Rattle.cxl_enc.specs.Faults.{LeavesCount, CountsExactly};
ghost use Rattle.cxl_io.specs.Reader.{Reader, line_limit, script_limit, fresh_reader, IsNext, HoldsLine, HasRead, HasStopped};
ghost use Rattle.cxl_io.specs.ReaderSteps.{kept_with, PassesBreak, PassesAll, IsRead, Refills, line_answer, last_answer};
ghost use Rattle.cxl_io.specs.Source.{SourceState, GivesFront};

use crate::source::Source;
use cxl_enc::{Failed, Memory};
use memchr::memchr;
use std::alloc::Global;
use std::marker::Model;

/// The most bytes of a line, without its ending. (This project's rule.)
pub const LINE_LIMIT: usize = 4_096;

/// The most bytes of a script, its lines with their endings. (This project's rule.)
pub const SCRIPT_LIMIT: usize = 16_777_216;

/// How many bytes of a line are kept: those of the longest line, and two more, which tell that a line is
/// too long, whatever its ending is.
const KEPT: usize = 4_098;

/// How many bytes are read at once.
const BLOCK: usize = 4_096;

/// What a reader of lines comes to.
#[derive(Clone, Copy, PartialEq, Eq)]
pub enum Taken {
    /// A line, which `line` gives.
    Line,
    /// A line of more than 4,096 bytes, which was passed over.
    Long,
    /// The source has ended.
    End,
    /// The source failed.
    Fault,
    /// The script has more than 16,777,216 bytes.
    TooMuch,
}

/// Reads the lines of a source, one after another, in blocks.
#[derive(Drop)]
pub struct LineReader {
    line: Vec<u8>,
    block: Vec<u8>,
    /// The bytes of the block from `at` to `end` are not passed on.
    at: usize,
    end: usize,
    taken: usize,
    /// What it answers from now on.
    stop: Option<Taken>,
}

impl Model for LineReader {
    ghost use Rattle.std.specs.Prelude.{◌≡◌, ◌+◌, ◌-◌, ◌≤◌, vec_len, vec_capacity, take, drop};
    ghost use Rattle.cxl_io.specs.Reader.{Reader};

    ghost Value = { Reader };

    ghost view = { λ r. record {
      taken = r.taken;
      held = take (r.end - r.at) (drop r.at r.block.items);
      line = r.line.items;
      stop = r.stop;
    } };

    ghost invariant = { λ r. (r.at ≤ r.end) × (r.end ≤ vec_len r.block) × (vec_len r.block ≡ 4096)
        × (vec_len r.line ≤ 4098) × (4098 ≤ vec_capacity r.line) × (r.taken ≤ 16777217) };
}

impl LineReader {
    /// Takes memory for one line and one block.
    pub fn new(alloc: Global) -> Result<LineReader, Memory>
        ensures { IfOk result (λ reader. reader ≡ fresh_reader) }
    {
        Ok(LineReader {
            line: Vec::with_capacity(alloc, KEPT)?,
            block: vec![in alloc; 0; BLOCK]?,
            at: 0,
            end: 0,
            taken: 0,
            stop: None,
        })
    }

    /// The line that the last answer gave, where that was `Line`.
    pub fn line(&self) -> &[u8]
        ensures { result.now ≡ self.now.line }
    {
        self.line.as_slice()
    }

    /// The next line. `Long` comes of a line above 4,096 bytes, and `TooMuch` at the byte behind 16,777,216. `End`,
    /// `Fault` and `TooMuch` come for good, once every line is passed on that ended before. Takes no memory.
    pub fn next<S: Source>(&mut self, source: &mut S) -> Taken
        ensures next { IsNext self.old self.new (S.state source.old) (S.state source.new) result }
        ensures counts { (S.state source.old).faults ≤ (S.state source.new).faults }
        ensures alone { (S.state source.new).counts_failures_alone ≡ (S.state source.old).counts_failures_alone }
        // A fault is not swallowed.
        ensures unswallowed { (result ≢ Taken.Fault) → LeavesCount (S.state source.old).counts_failures_alone
            (S.state source.old).faults (S.state source.new).faults }
        // The first read that fails is its last.
        ensures counted { result ≡ Taken.Fault → self.old.stop ≡ None → CountsExactly 1 (S.state source.old).counts_failures_alone
            (S.state source.old).faults (S.state source.new).faults }
        // A line that is held is given before more is read.
        ensures held { HoldsLine self.old → S.state source.new ≡ S.state source.old }
        ensures takes_none { HoldsLine self.old → self.new.taken ≡ self.old.taken }
    {
        self.begin();
        if let Some(answer) = self.stopped() {
            return answer;
        }
        'turns: loop {
            if self.pass_break() {
                return self.ended();
            }
            if self.is_over() {
                return self.stop(Taken::TooMuch);
            }
            match self.refill(source) {
                Ok(0) => return self.last(),
                Ok(_) => {}
                Err(Failed) => return self.stop(Taken::Fault),
            }
        }
    }

    fn begin(&mut self)
        ensures after { self.new ≡ record self.old { line = [] } }
        ensures few { self.old.taken ≤ script_limit + 1 }
    {
        self.line.clear();
    }

    fn stopped(&self) -> Option<Taken>
        ensures { result ≡ self.now.stop }
    {
        self.stop
    }

    /// Answers so from now on.
    fn stop(&mut self, answer: Taken) -> Taken
        ensures answer { result ≡ answer }
        ensures after { self.new ≡ record self.old { stop = Some answer } }
    {
        self.stop = Some(answer);
        answer
    }

    /// Whether a byte came past the limit.
    fn is_over(&self) -> bool
        ensures { IsTrue result ↔ (script_limit < self.now.taken) }
    {
        self.taken > SCRIPT_LIMIT
    }

    /// Passes the bytes of the block up to its first line ending, and says whether there was one.
    fn pass_break(&mut self) -> bool
        ensures found { OnTrue result (PassesBreak self.old self.new) }
        ensures none { OnFalse result (PassesAll self.old self.new) }
    {
        let held = &self.block[self.at..self.end];
        match first_break(held) {
            Some(n) => {
                keep(&mut self.line, &held[..n]);
                self.at += n + 1;
                true
            }
            None => {
                keep(&mut self.line, held);
                self.at = self.end;
                false
            }
        }
    }

    /// Reads a block, of which no byte past the limit is held. It takes one at the most.
    fn refill<S: Source>(&mut self, source: &mut S) -> Result<usize, Failed>
        requires held { self.old.held ≡ [] }
        requires taken { self.old.taken ≤ script_limit }
        ensures ok { IfOk result (Refills self.old self.new (S.state source.old) (S.state source.new)) }
        ensures err { OnErr result (self.new ≡ self.old) }
        ensures read { IsRead result (S.state source.old) (S.state source.new) }
    {
        let room = self.block.len().min(SCRIPT_LIMIT + 1 - self.taken);
        let n = read_front(source, &mut self.block, room)?;
        self.at = 0;
        self.end = n.min(SCRIPT_LIMIT - self.taken);
        self.taken += n;
        Ok(n)
    }

    /// A line that ended: a carriage return before the ending is no part of it.
    fn ended(&mut self) -> Taken
        ensures answer { result ≡ line_answer (strip_carriage_return self.old.line) }
        ensures after { self.new ≡ record self.old { line = strip_carriage_return self.old.line } }
    {
        if let Some(b'\r') = self.line.last() {
            self.line.pop();
        }
        line_answer(&self.line)
    }

    /// The source has ended: a last line is given where it is not empty.
    fn last(&mut self) -> Taken
        ensures answer { result ≡ last_answer self.old.line }
        ensures after { self.new ≡ record self.old { stop = Some Taken.End } }
    {
        self.stop = Some(Taken::End);
        if self.line.is_empty() {
            Taken::End
        } else {
            line_answer(&self.line)
        }
    }
}

/// Reads into so many bytes in front.
fn read_front<S: Source>(source: &mut S, block: &mut [u8], room: usize) -> Result<usize, Failed>
    requires some { 0 < room }
    requires within { room ≤ length block.old }
    ensures within { IfOk result (λ n. n ≤ room) }
    ensures given { IfOk result (λ n. GivesFront (S.state source.old) (S.state source.new) (take n block.new)) }
    ensures read { IsRead result (S.state source.old) (S.state source.new) }
{
    source.read(&mut block[..room])
}

#[tactic(auto, using(crate::proofs::FirstByte::first_byte))]
fn first_break(bytes: &[u8]) -> Option<usize>
    ensures { result ≡ position (λ byte. byte == 10) bytes.now }
{
    memchr(b'\n', bytes)
}

/// Appends what has room of a piece of a line.
fn keep(line: &mut Vec<u8>, piece: &[u8])
    requires few { vec_len line.old ≤ 4098 }
    requires room { 4098 ≤ vec_capacity line.old }
    ensures kept { line.new.items ≡ kept_with line.old.items piece.now }
    ensures len { vec_len line.new ≤ 4098 }
    ensures room { vec_capacity line.old ≤ vec_capacity line.new }
{
    let n = piece.len().min(KEPT - line.len());
    line.extend_from_slice(&piece[..n]).unwrap();
}

fn line_answer(line: &[u8]) -> Taken
    ensures { result ≡ line_answer line.now }
{
    if line.len() <= LINE_LIMIT {
        Taken::Line
    } else {
        Taken::Long
    }
}

/// A law of readers: what a reader has passed on, answer by answer. At the end it is all lines of the
/// source; where the source failed or a byte came past the limit, the lines that ended before.
pub fn reader_goes_on()
    ensures begin { (source : SourceState) → HasRead [] source fresh_reader source }
    ensures line { (passed : List (List ℕ)) (start before after : SourceState) (old new : Reader)
        → HasRead passed start old before → IsNext old new before after Taken.Line
        → HasRead (passed ++ new.line ∷ []) start new after }
    ensures long { (passed : List (List ℕ)) (start before after : SourceState) (old new : Reader)
        → HasRead passed start old before → IsNext old new before after Taken.Long
        → (line : List ℕ) × (line_limit < length line) × HasRead (passed ++ line ∷ []) start new after }
    ensures stop { (passed : List (List ℕ)) (start before after : SourceState) (old new : Reader) (answer : Taken)
        → HasRead passed start old before → IsNext old new before after answer
        → answer ≢ Taken.Line → answer ≢ Taken.Long
        → HasRead passed start new after × (new.stop ≡ Some answer) × HasStopped answer passed start after }
{}
