//! The lines that ask for an access.

ghost use Rattle.std.specs.Prelude.{◌≡◌, ◌+◌, ◌≤◌, ◌++◌, length, codes, decimal};
ghost use Rattle.cxl_io.specs.Printed.{hex_of};
ghost use Rattle.cxl_pipe.specs.Protocol.{question_limit, read_question, write_question};

use arrayvec::ArrayVec;
use cxl_io::write_hex;
use itoa::Buffer;
use std::marker::Model;

/// How many bytes a question has at the most.
const QUESTION_LIMIT: usize = 64;

/// A line that asks for an access. Contracts see it as the list of its bytes. It takes no memory.
#[derive(Drop)]
pub struct Question {
    text: ArrayVec<u8, QUESTION_LIMIT>,
}

impl Model for Question {
    ghost use Rattle.std.specs.Prelude.{List, ℕ, ◌≤◌, length};
    ghost use Rattle.cxl_pipe.specs.Protocol.{question_limit};

    ghost Value = { List ℕ };

    ghost view = { λ question. question.text.items };

    ghost invariant = { λ question. length question.text.items ≤ question_limit };
}

impl Question {
    /// Asks for the word at an offset of a node.
    pub fn read(node: u32, off: u32) -> Question
        ensures { result ≡ read_question node off }
    {
        let mut question = Question::place(b"r ", node, off);
        question.put(b"\n");
        question
    }

    /// Asks for a write of a word.
    pub fn write(node: u32, off: u32, value: u32) -> Question
        ensures { result ≡ write_question node off value }
    {
        let mut question = Question::place(b"w ", node, off);
        question.put_hex(value);
        question.put(b"\n");
        question
    }

    /// The bytes of the line, with its end.
    pub fn bytes(&self) -> &[u8]
        ensures { result.now ≡ self.now }
    {
        self.text.as_slice()
    }

    /// The verb, and where the word stands.
    fn place(verb: &[u8], node: u32, off: u32) -> Question
        requires { length verb.now ≤ 2 }
        ensures text { result ≡ verb.now ++ decimal node ++ codes " 0x" ++ hex_of off }
        ensures len { length result ≤ 31 }
    {
        let mut number = Buffer::new();
        let mut question = Question {
            text: ArrayVec::new(),
        };
        question.put(verb);
        question.put(number.format(node).as_bytes());
        question.put_hex(off);
        question
    }

    fn put(&mut self, text: &[u8])
        requires { length self.old + length text.now ≤ question_limit }
        ensures text { self.new ≡ self.old ++ text.now }
        ensures len { length self.new ≡ length self.old + length text.now }
    {
        let _ = self.text.try_extend_from_slice(text);
    }

    /// A number in hexadecimal digits, behind a space and `0x`.
    fn put_hex(&mut self, number: u32)
        requires { length self.old + 19 ≤ question_limit }
        ensures text { self.new ≡ self.old ++ codes " 0x" ++ hex_of number }
        ensures len { length self.new ≤ length self.old + 19 }
    {
        let mut digits = [b'0'; 16];
        let start = write_hex(u64::from(number), &mut digits);
        self.put(b" 0x");
        self.put(&digits[start..]);
    }
}
