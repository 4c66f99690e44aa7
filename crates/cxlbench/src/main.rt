//! Carries out a script as `cxlplan run` does, over registers of another program at the other end of two pipes.
#![tactic(auto)]

use cxl_hints::Hints;
use cxl_io::{Memory, StdFetch, StdSink, StdSource};
use cxl_media::SimMedia;
use cxl_pipe::{PipeBus, Pipes};
use cxl_shell::{Status, ended, program, words};
use std::alloc::Global;
use std::fs::{self, File, OpenOptions};
use std::io;
use std::os::unix::fs::FileTypeExt;
use std::process::ExitCode;

/// What `--help` writes.
const HELP: &str = "\
cxlbench carries out a script as cxlplan run does, over registers of another program.

cxlbench [--read-back] CEDT TOPO TO FROM
        the lines of standard input, each answered, on the host after reset
cxlbench [--read-back] CEDT TOPO IMAGE TO FROM
        the same on the host with the registers of an image
cxlbench --help
        this text
cxlbench --version
        the version

CEDT, TOPO, IMAGE, the lines, the replies and the exit statuses are those of
cxlplan; see cxlplan --help. TO and FROM are pipes, as mkfifo makes them: TO is
opened first, for writing, and is refused where it is a plain file. Each access
of a register is a line to TO, which a line from FROM answers:
    r NODE OFF         0x and the hexadecimal digits of the word, or failed
    w NODE OFF VALUE   ok, or failed
NODE is the number of a node in the topology, in decimal digits; OFF, a place in
its HDM decoder registers, and VALUE are hexadecimal digits after 0x. A word that
is not the one that the writes before it leave is a fault of the registers, as
failed is. Anything else that comes, also more than a line, ends the run's
accesses: every later one fails, and the status is 7. Before the first line of
the script each word is read once, and behind the last one two words; where one
differs, the status is 7, too.

--read-back reads the control word behind each commit until the commit is done or
refused, at most 1000 times. One that is refused is a failed access.
";

/// What `--version` writes.
const VERSION: &str = "cxlbench 1.0.0\n";

fn main(rt: HostRuntime) -> ExitCode {
    let Ok(mut words) = words(&rt) else {
        return ended(Status::Memory);
    };
    let first = match words.first() {
        Some(word) => word.as_str(),
        None => "",
    };
    match (first, words.len()) {
        ("--help" | "-h", 1) => ended(told(&rt, HELP, Status::Done)),
        ("--version", 1) => ended(told(&rt, VERSION, Status::Done)),
        ("--read-back", 5 | 6) => {
            let _ = words.remove(0);
            over_pipes(&rt, words, true)
        }
        ("--read-back", _) => ended(misused(&rt)),
        (_, 4 | 5) => over_pipes(&rt, words, false),
        _ => ended(misused(&rt)),
    }
}

/// Writes a text.
fn told(rt: &HostRuntime, text: &str, status: Status) -> Status {
    match print!(rt; "{text}") {
        Ok(()) => status,
        Err(_) => Status::WriteFault,
    }
}

/// The words are no command.
fn misused(rt: &HostRuntime) -> Status {
    // A hint that cannot be written changes nothing.
    let _ = eprintln!(rt;
        "cxlbench: it takes CEDT TOPO TO FROM or CEDT TOPO IMAGE TO FROM, with --read-back before them or not; see cxlbench --help"
    );
    told(rt, "usage\n", Status::Usage)
}

/// Carries out the script over the registers behind the two pipes that the last words name.
fn over_pipes(rt: &HostRuntime, mut words: Vec<String>, reads_back: bool) -> ExitCode {
    let (Some(from), Some(to)) = (words.pop(), words.pop()) else {
        return ended(misused(rt));
    };
    if !is_pipe(rt, to.as_str()) {
        return ended(unopened(rt, to.as_str()));
    }
    if fs::metadata(rt, from.as_str()).is_err() {
        return ended(unopened(rt, from.as_str()));
    }
    // Each pipe is opened once a peer opens its other end.
    let _ = eprintln!(rt; "cxlbench: waits for a peer that reads {to} and writes {from}");
    let mut how = OpenOptions::new();
    how.write(true);
    let Ok(questions) = how.open(rt, to.as_str()) else {
        return ended(unopened(rt, to.as_str()));
    };
    let Ok(answers) = File::open(rt, from.as_str()) else {
        return ended(unopened(rt, from.as_str()));
    };
    run_over(rt, words, reads_back, questions, answers)
}

/// Whether what is named is a pipe or a device of characters, in which no file is lost by a write.
fn is_pipe(rt: &HostRuntime, name: &str) -> bool {
    match fs::metadata(rt, name) {
        Ok(it) => it.file_type().is_fifo() || it.file_type().is_char_device(),
        Err(_) => false,
    }
}

/// A pipe cannot be opened.
fn unopened(rt: &HostRuntime, pipe: &str) -> Status {
    let _ = eprintln!(rt;
        "cxlbench: {pipe} cannot be opened; mkfifo makes a pipe, and TO is never a plain file"
    );
    match println!(rt; "error: cannot open {pipe}") {
        Ok(()) => Status::FetchFault,
        Err(_) => Status::WriteFault,
    }
}

/// Carries out the script over files and registers, by the words of `run`, and over devices in memory.
fn run_over(
    rt: &HostRuntime,
    words: Vec<String>,
    reads_back: bool,
    questions: File,
    answers: File,
) -> ExitCode {
    let alloc = rt.alloc();
    let peer = Pipes::new(StdSource::new(answers), StdSink::new(questions));
    let Ok(mut regs) = PipeBus::new(alloc, peer, reads_back) else {
        return ended(Status::Memory);
    };
    let code = program(
        alloc,
        run_words(alloc, words),
        &mut StdFetch::new(rt),
        &mut StdSource::new(rt.reader()),
        &mut StdSink::new(io::writer(rt)),
        &mut regs,
        &mut SimMedia::new(alloc),
        &mut Hints::new(rt, alloc),
    );
    if regs.ends_in_step() {
        return code;
    }
    let _ = eprintln!(rt; "cxlbench: {}", regs.trouble());
    ended(Status::BusFault)
}

/// The words of `run` with these behind it. Takes memory.
fn run_words(alloc: Global, mut words: Vec<String>) -> Result<Vec<String>, Memory> {
    words.insert(0, String::from_str(alloc, "run")?)?;
    Ok(words)
}
