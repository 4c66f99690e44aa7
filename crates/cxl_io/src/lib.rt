//! The outside of `cxlplan`: files by name, a sink and a source of bytes, lines, numbers as text, and how
//! each of them shows that it failed.
#![tactic(auto)]

mod fetch;
mod line_reader;
mod lines;
mod mem_fetch;
mod mem_sink;
mod mem_source;
mod number;
mod print;
mod sink;
mod source;
mod std_fetch;
mod std_sink;
mod std_source;

pub use cxl_enc::{Failed, Memory, Name};
pub use fetch::{Fetch, FetchFault};
pub use line_reader::{LINE_LIMIT, LineReader, SCRIPT_LIMIT, Taken, reader_goes_on};
pub use lines::Lines;
pub use mem_fetch::MemFetch;
pub use mem_sink::MemSink;
pub use mem_source::MemSource;
pub use number::{NumFault, read_number};
pub use print::{put_hex, put_number, write_hex};
pub use sink::{Sink, write_all, writes_join};
pub use source::Source;
pub use std_fetch::{StdFetch, whole_file};
pub use std_sink::StdSink;
pub use std_source::StdSource;
