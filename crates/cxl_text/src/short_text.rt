//! A text of few bytes, put together without memory.

ghost use Rattle.std.specs.Prelude.{◌≡◌, ◌+◌, ◌<◌, ◌≤◌, [], ◌∷◌, ◌++◌, length, decimal, Some};
ghost use Rattle.cxl_enc.specs.Codes.{granularity_of};
ghost use Rattle.cxl_reply.specs.Words.{hex_text, gran_text, node_text};
ghost use Rattle.cxl_text.specs.Short.{short_limit};
ghost use Rattle.cxl_reply.specs.Texts.{layout_text};

use arrayvec::ArrayVec;
use cxl_enc::{Name, gran_of};
use cxl_io::write_hex;
use cxl_topo::Topo;
use itoa::Buffer;
use std::marker::Model;

/// How many bytes a short text has at the most.
const SHORT_LIMIT: usize = 128;

/// A text of at most 128 bytes. Contracts see it as the list of its bytes. It takes no memory.
#[derive(Drop)]
pub struct ShortText {
    text: ArrayVec<u8, SHORT_LIMIT>,
}

impl Model for ShortText {
    ghost use Rattle.std.specs.Prelude.{List, ℕ, ◌≤◌, length};
    ghost use Rattle.cxl_text.specs.Short.{short_limit};

    ghost Value = { List ℕ };

    ghost view = { λ short. short.text.items };

    ghost invariant = { λ short. length short.text.items ≤ short_limit };
}

impl ShortText {
    /// The bytes of the text.
    pub fn bytes(&self) -> &[u8]
        ensures bytes { result.now ≡ self.now }
        ensures few { length result.now ≤ short_limit }
    {
        self.text.as_slice()
    }

    pub(crate) fn new() -> ShortText
        ensures { result ≡ [] }
    {
        ShortText {
            text: ArrayVec::new(),
        }
    }

    pub(crate) fn put(&mut self, text: &[u8])
        requires { length self.old + length text.now ≤ short_limit }
        ensures text { self.new ≡ self.old ++ text.now }
        ensures len { length self.new ≡ length self.old + length text.now }
    {
        let _ = self.text.try_extend_from_slice(text);
    }

    /// Words, and a name behind them.
    pub(crate) fn put_name(&mut self, words: &[u8], name: &Name)
        requires { length self.old + length words.now + 15 ≤ short_limit }
        ensures text { self.new ≡ self.old ++ words.now ++ name.now }
        ensures len { length self.new ≤ length self.old + length words.now + 15 }
    {
        self.put(words);
        self.put(name.bytes());
    }

    /// Words, and a node's name behind them.
    pub(crate) fn put_node(&mut self, words: &[u8], node: u32, topo: &Topo)
        requires room { length self.old + length words.now + 15 ≤ short_limit }
        requires node { node < length topo.now.nodes }
        ensures text { self.new ≡ self.old ++ words.now ++ node_text topo.now.nodes node }
        ensures len { length self.new ≤ length self.old + length words.now + 15 }
    {
        self.put_name(words, &topo.node(node).name);
    }

    /// Words, and a number behind them in decimal digits.
    pub(crate) fn put_number(&mut self, words: &[u8], number: u32)
        requires { length self.old + length words.now + 10 ≤ short_limit }
        ensures text { self.new ≡ self.old ++ words.now ++ decimal number }
        ensures len { length self.new ≤ length self.old + length words.now + 10 }
    {
        self.put(words);
        if number < 10 {
            self.put_digit(number as u8);
            return;
        }
        let mut buffer = Buffer::new();
        self.put(buffer.format(number).as_bytes());
    }

    /// Words, and a number behind them in decimal digits, at most twenty.
    pub(crate) fn put_long_number(&mut self, words: &[u8], number: u64)
        requires { length self.old + length words.now + 20 ≤ short_limit }
        ensures text { self.new ≡ self.old ++ words.now ++ decimal number }
        ensures len { length self.new ≤ length self.old + length words.now + 20 }
    {
        self.put(words);
        if number < 10 {
            self.put_digit(number as u8);
            return;
        }
        let mut buffer = Buffer::new();
        self.put(buffer.format(number).as_bytes());
    }

    /// A number of one digit.
    fn put_digit(&mut self, number: u8)
        requires room { length self.old < short_limit }
        requires digit { number < 10 }
        ensures text { self.new ≡ self.old ++ decimal number }
        ensures len { length self.new ≡ length self.old + 1 }
    {
        self.put(&[b'0' + number]);
    }

    /// Words, and a number behind them in hexadecimal digits, behind `0x`.
    pub(crate) fn put_hex(&mut self, words: &[u8], number: u64)
        requires { length self.old + length words.now + 18 ≤ short_limit }
        ensures text { self.new ≡ self.old ++ words.now ++ hex_text number }
        ensures len { length self.new ≤ length self.old + length words.now + 18 }
    {
        let mut digits = [b'0'; 16];
        let start = write_hex(number, &mut digits);
        self.put(words);
        self.put(b"0x");
        self.put(&digits[start..]);
    }

    /// Words, and the bytes of a granularity code behind them, in decimal digits.
    pub(crate) fn put_gran(&mut self, words: &[u8], code: u8)
        requires room { length self.old + length words.now + 10 ≤ short_limit }
        requires code { code ≤ 6 }
        ensures text { self.new ≡ self.old ++ words.now ++ gran_text code }
        ensures len { length self.new ≤ length self.old + length words.now + 10 }
    {
        self.put_number(words, gran_of(code).unwrap());
    }

    /// Where a region lies, and how it interleaves.
    pub(crate) fn put_layout(&mut self, window: u32, base: u64, size: u64, gran: u8, ways: u8)
        requires room { length self.old + 98 ≤ short_limit }
        requires code { gran ≤ 6 }
        ensures text { self.new ≡ self.old ++ layout_text window base size gran ways }
        ensures len { length self.new ≤ length self.old + 98 }
    {
        self.put_number(b"window ", window);
        self.put_hex(b" base ", base);
        self.put_hex(b" size ", size);
        self.put_gran(b" gran ", gran);
        self.put_number(b" ways ", u32::from(ways));
    }
}
