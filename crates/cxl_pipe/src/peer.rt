//! The trait by which another program is asked, a line at a time.

ghost use Rattle.std.specs.Prelude.{◌+◌, ◌≤◌, length, take, IfOk, IfErr};
ghost use Rattle.cxl_pipe.specs.Talk.{Talk, answer_limit, IsAnswered, IsAstray};

/// The most bytes of an answer, without its line feed. (This project's rule.)
pub const ANSWER_LIMIT: usize = 4_096;

/// Why a question has no answer.
#[derive(Clone, Copy, PartialEq, Eq)]
pub enum How {
    /// The question could not be sent.
    Unsent,
    /// Reading failed before a line ended.
    Unread,
    /// The peer ended before a line did.
    Ended,
    /// More came behind a line.
    Behind,
    /// A line of more than 4,096 bytes came.
    Long,
}

/// A question has no answer.
#[derive(Clone, Copy, PartialEq, Eq)]
pub struct Astray {
    pub how: How,
    /// How many bytes came.
    pub came: usize,
}

/// A program that answers each line with a line.
pub trait Peer {
    /// What went to it, and what it has still to say, where these are told.
    ghost state: { Self → Talk };

    /// Sends a question, a line with its end, and then puts the line that answers it, without its end, in front into
    /// `line`, and answers how many bytes it has. An answer is all that comes behind its question: a line without its
    /// end, more behind a line, or a line of more than 4,096 bytes is none, and what came stands in front in `line`.
    fn ask(&mut self, question: &[u8], line: &mut [u8]) -> Result<usize, Astray>
        requires { answer_limit + 1 ≤ length line.old }
        ensures within { IfOk result (λ n. n ≤ answer_limit) }
        ensures answered { IfOk result (λ n. IsAnswered question.now (take n line.new) (state self.old) (state self.new)) }
        ensures few { IfErr result (λ it. it.came ≤ answer_limit + 1) }
        ensures astray { IfErr result (λ it. IsAstray question.now (take it.came line.new) it.how (state self.old) (state self.new)) };
}
