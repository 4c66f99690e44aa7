//! A peer at the other end of two pipes.

ghost use Rattle.std.specs.Prelude.{◌≡◌, ◌+◌, ◌-◌, ◌<◌, ◌≤◌, ◌==◌, length, take, position, IfOk, IfErr, OnErr};
ghost use Rattle.cxl_enc.specs.Faults.{HasCause};
ghost use Rattle.cxl_io.specs.Source.{SourceState, GivesFront, IsAtEnd};
ghost use Rattle.cxl_pipe.specs.Talk.{answer_limit, ComesAlone, ComesAstray};

use crate::peer::{ANSWER_LIMIT, Astray, How, Peer};
use cxl_enc::Failed;
use cxl_io::{Sink, Source, write_all};
use std::marker::Model;

/// A peer that reads its questions where `to` leads, and whose answers come `from` elsewhere. It reads nothing before a
/// question is sent, and holds nothing between two questions.
#[derive(Drop)]
pub struct Pipes<S: Source, K: Sink> {
    from: S,
    to: K,
}

impl<S: Source, K: Sink> Model for Pipes<S, K> {
    ghost use Rattle.cxl_pipe.specs.Talk.{Talk};

    ghost Value = { Talk };

    ghost view = { λ pipes. record { to = K.state pipes.to; from = S.state pipes.from } };
}

impl<S: Source, K: Sink> Pipes<S, K> {
    /// A peer over where its lines come from and where the questions go. Takes no memory.
    pub fn new(from: S, to: K) -> Pipes<S, K>
        ensures { result ≡ record { to = K.state to; from = S.state from } }
    {
        Pipes { from, to }
    }
}

impl<S: Source, K: Sink> Peer for Pipes<S, K> {
    ghost state = { λ pipes. pipes };

    fn ask(&mut self, question: &[u8], line: &mut [u8]) -> Result<usize, Astray> {
        let Ok(()) = write_all(&mut self.to, question) else {
            return Err(Astray {
                how: How::Unsent,
                came: 0,
            });
        };
        read_line(&mut self.from, line)
    }
}

/// Reads up to a line feed, and wants nothing behind it.
fn read_line<S: Source>(from: &mut S, line: &mut [u8]) -> Result<usize, Astray>
    requires { answer_limit + 1 ≤ length line.old }
    ensures within { IfOk result (λ n. n ≤ answer_limit) }
    ensures alone { IfOk result (λ n. ComesAlone (take n line.new) (S.state from.old) (S.state from.new)) }
    ensures few { IfErr result (λ it. it.came ≤ answer_limit + 1) }
    ensures astray { IfErr result (λ it. ComesAstray (take it.came line.new) it.how (S.state from.old) (S.state from.new)) }
{
    let mut at = 0;
    'turns: while at <= ANSWER_LIMIT {
        let Ok(more) = read_behind(from, line, at) else {
            return Err(Astray {
                how: How::Unread,
                came: at,
            });
        };
        if more == 0 {
            return Err(Astray {
                how: How::Ended,
                came: at,
            });
        }
        at += more;
        if let Some(n) = line_end(&line[..at]) {
            return ended(n, at);
        }
    }
    Err(Astray {
        how: How::Long,
        came: at,
    })
}

/// A line that ended at a place, of so many bytes that came.
fn ended(end: usize, came: usize) -> Result<usize, Astray>
    requires { end < came }
    ensures alone { IfOk result (λ n. (n ≡ end) × (end + 1 ≡ came)) }
    ensures behind { IfErr result (λ it. (it.how ≡ How.Behind) × (it.came ≡ came) × (end + 1 < came)) }
{
    if end + 1 == came {
        return Ok(end);
    }
    Err(Astray {
        how: How::Behind,
        came,
    })
}

/// Reads into a line behind its first bytes, up to one more than an answer has.
fn read_behind<S: Source>(from: &mut S, line: &mut [u8], at: usize) -> Result<usize, Failed>
    requires here { at ≤ answer_limit }
    requires room { answer_limit + 1 ≤ length line.old }
    ensures within { IfOk result (λ more. at + more ≤ answer_limit + 1) }
    ensures front { take at line.new ≡ take at line.old }
    ensures given { IfOk result (λ more. (start : SourceState) → GivesFront start (S.state from.old) (take at line.old)
        → GivesFront start (S.state from.new) (take (at + more) line.new)) }
    ensures end { IfOk result (λ more. more ≡ 0 → IsAtEnd (S.state from.new)) }
    ensures failed { OnErr result ((S.state from.new).left ≡ (S.state from.old).left) }
    ensures cause { HasCause result (S.state from.old).faults (S.state from.new).faults }
    ensures counts { (S.state from.old).faults ≤ (S.state from.new).faults }
{
    from.read(&mut line[at..ANSWER_LIMIT + 1])
}

/// Where the first line feed stands.
fn line_end(bytes: &[u8]) -> Option<usize>
    ensures { result ≡ position (λ byte. byte == 10) bytes.now }
{
    bytes.iter().position(|byte| *byte == b'\n')
}
