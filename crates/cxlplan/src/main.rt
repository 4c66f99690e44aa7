//! A planner and checker for CXL memory regions, over the files of the system, standard input and output, and
//! devices in memory.
#![tactic(auto)]

use cxl_bus::SimBus;
use cxl_hints::Hints;
use cxl_io::{StdFetch, StdSink, StdSource};
use cxl_media::SimMedia;
use cxl_shell::{program, words};
use std::io;
use std::process::ExitCode;

fn main(rt: HostRuntime) -> ExitCode {
    let alloc = rt.alloc();
    program(
        alloc,
        words(&rt),
        &mut StdFetch::new(&rt),
        &mut StdSource::new(rt.reader()),
        &mut StdSink::new(io::writer(&rt)),
        &mut SimBus::new(alloc),
        &mut SimMedia::new(alloc),
        &mut Hints::new(&rt, alloc),
    )
}
