//! One write of a job, and what a step of it came to.

/// One register write of a job, and the value that takes it back.
#[derive(Clone, Copy)]
pub struct Write {
    pub node: u32,
    /// The offset of the word in the node's block, in bytes.
    pub off: u32,
    pub value: u32,
    pub back: u32,
}

/// What a step of a job came to.
#[derive(Clone, Copy, PartialEq, Eq)]
pub enum Stepped {
    /// It was the last.
    Done,
    /// More are to come.
    More,
    /// The bus failed, and nothing changed.
    BusFault,
}
