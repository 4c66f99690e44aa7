//! An example of a program over registers of its own: the words of `cxlplan`, carried out over a board that counts.
#![tactic(auto)]

mod board;

use board::Board;
use cxl_io::{StdFetch, StdSink, StdSource};
use cxl_media::SimMedia;
use cxl_shell::{Silent, program, words};
use std::io;
use std::process::ExitCode;

fn main(rt: HostRuntime) -> ExitCode {
    let alloc = rt.alloc();
    let mut board = Board::new(alloc);
    let code = program(
        alloc,
        words(&rt),
        &mut StdFetch::new(&rt),
        &mut StdSource::new(rt.reader()),
        &mut StdSink::new(io::writer(&rt)),
        &mut board,
        &mut SimMedia::new(alloc),
        &mut Silent,
    );
    // Where standard error is closed, nobody asks.
    let _ = eprintln!(&rt; "cxlboard: {} reads, {} writes", board.reads, board.writes);
    drop(board);
    code
}
