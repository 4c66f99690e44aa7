//! How the lines of a script come to their end.

/// How the lines of a script came to their end. (This project's rule.)
#[derive(Clone, Copy, PartialEq, Eq)]
pub enum Ending {
    /// The script was read to its end.
    Done,
    /// The source failed.
    ReadFault,
    /// The script has more than 16,777,216 bytes.
    TooMuch,
    /// The sink failed.
    WriteFault,
    Memory,
}
