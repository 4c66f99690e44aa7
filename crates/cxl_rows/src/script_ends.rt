//! How scripts end where the outside fails, of which no clause speaks: how far a script is read ahead, and that a reply is
//! one write.

use crate::host_files::TWO_ENDPOINTS;
use crate::rows::{ROOM, bytes, files_of, row_passes_at, sink_of, words_of};
use crate::tables::TWO_BRIDGES;
use cxl_bus::{FailingBus, Sent};
use cxl_io::{MemSink, MemSource, Source};
use cxl_media::SimMedia;
use cxl_shell::run;
use std::alloc::Global;
use std::process::Abort;

/// A line that is answered by as many bytes as it has.
const LINE: &[u8] = b"down 0x0\n";

const ANSWER: &[u8] = b"unmapped\n";

const CREATE: &[u8] = b"create r0 ram 0x20000000 e0 e1\n";

const CREATED: &[u8] = b"created r0 window 0 base 0x100000000 size 0x20000000 gran 256 ways 2\n";

/// So many lines that are answered by nine bytes each, of which there are nine, too.
const LINES: usize = 1_000;

/// The parts of text one behind the other, so many times.
fn repeated(rt: &impl Abort, alloc: Global, parts: &[&[u8]], times: usize) -> Vec<u8> {
    let mut text = Vec::new(alloc);
    for _ in 0..times {
        for part in parts {
            text.extend_from_slice(part).expect(rt, "memory");
        }
    }
    text
}

/// A script of the parts, so many times, whose read of this number fails, or none where that is 0.
fn source_of(
    rt: &impl Abort,
    alloc: Global,
    parts: &[&[u8]],
    times: usize,
    read: u64,
) -> MemSource {
    let lines = repeated(rt, alloc, parts, times);
    MemSource::new(lines, [read].to_vec(alloc).expect(rt, "memory"))
}

/// Runs a script over two bridges with an endpoint each, and gives the exit status.
fn code_of_script(
    rt: &impl Abort,
    alloc: Global,
    topology: &str,
    source: &mut MemSource,
    sink: &mut MemSink,
    regs: &mut FailingBus,
) -> u8 {
    let words = words_of(rt, alloc, "run table topology");
    let table = bytes(rt, alloc, TWO_BRIDGES);
    let mut files = files_of(rt, alloc, table, topology, Vec::new(alloc), 0);
    let mut media = SimMedia::new(alloc);
    let status = run(alloc, &words, &mut files, source, sink, regs, &mut media);
    drop(files);
    drop(media);
    status.code()
}

/// How many bytes a source has left.
fn left_in(rt: &impl Abort, source: &mut MemSource) -> usize {
    let mut count: usize = 0;
    let mut block = [0; 1_000];
    for _ in 0..LINES {
        let read = source.read(&mut block).expect(rt, "no fault");
        count = count.saturating_add(read);
    }
    count
}

/// Whether the run of a thousand lines, whose reads and writes of these numbers fail, ends so behind so many replies and
/// leaves so many bytes of the script.
fn ends(rt: &impl Abort, alloc: Global, read: u64, write: u64, code: u8, replies: usize) -> bool {
    let mut source = source_of(rt, alloc, &[LINE], LINES, read);
    let mut sink = sink_of(rt, alloc, ROOM, write);
    let mut regs = FailingBus::new(alloc, Vec::new(alloc));
    let status = code_of_script(rt, alloc, TWO_ENDPOINTS, &mut source, &mut sink, &mut regs);
    let written = is_written(rt, alloc, sink.bytes(), code, replies);
    drop(source);
    drop(sink);
    drop(regs);
    status == code && written
}

/// Whether these bytes are so many replies, and the error where the script was not read to its end.
fn is_written(rt: &impl Abort, alloc: Global, bytes: &[u8], code: u8, replies: usize) -> bool {
    let mut text = repeated(rt, alloc, &[ANSWER], replies);
    if code == 5 {
        text.extend_from_slice(b"error: script read failed\n")
            .expect(rt, "memory");
    }
    bytes == text.as_slice()
}

/// A reply is one write, and each stands before the next line is carried out.
#[test]
fn sink_fails_at_each_write(rt: HostRuntime) {
    for write in 1..41 {
        let right = ends(&rt, rt.alloc(), 0, write, 6, write as usize - 1);
        row_passes_at(&rt, "failing write", write as usize, right);
    }
}

/// The lines that ended before the source failed are answered.
#[test]
fn source_fails_at_each_read(rt: HostRuntime) {
    for read in 1..4 {
        let replies = (read as usize - 1) * 4_096 / LINE.len();
        row_passes_at(
            &rt,
            "failing read",
            read as usize,
            ends(&rt, rt.alloc(), read, 0, 5, replies),
        );
    }
    assert!(&rt; ends(&rt, rt.alloc(), 4, 0, 5, LINES));
    assert!(&rt; ends(&rt, rt.alloc(), 0, 0, 0, LINES));
}

/// How many bytes of a script of a thousand lines are left where the write of this number fails.
fn left_behind(rt: &impl Abort, alloc: Global, write: u64) -> usize {
    let mut source = source_of(rt, alloc, &[LINE], LINES, 0);
    let mut sink = sink_of(rt, alloc, ROOM, write);
    let mut regs = FailingBus::new(alloc, Vec::new(alloc));
    code_of_script(rt, alloc, TWO_ENDPOINTS, &mut source, &mut sink, &mut regs);
    let left = left_in(rt, &mut source);
    drop(source);
    drop(sink);
    drop(regs);
    left
}

/// No block is read before the lines of the one before it are carried out: the 456th line is the first that needs the second.
#[test]
fn reads_no_block_ahead(rt: HostRuntime) {
    // Of the 9,000 bytes of all lines.
    assert!(&rt; left_behind(&rt, rt.alloc(), 1) == 9_000 - 4_096);
    assert!(&rt; left_behind(&rt, rt.alloc(), 455) == 9_000 - 4_096);
    assert!(&rt; left_behind(&rt, rt.alloc(), 456) == 9_000 - 8_192);
}

/// Whether a create whose bus fails at this call is undone, and made when it is asked for again: behind the words that
/// enable the endpoints stand those that were made and taken back, and then all of the create.
fn is_undone(rt: &impl Abort, alloc: Global, call: u64) -> bool {
    let mut source = source_of(rt, alloc, &[CREATE], 2, 0);
    let mut sink = sink_of(rt, alloc, ROOM, 0);
    let fails = [call].to_vec(alloc).expect(rt, "memory");
    let mut regs = FailingBus::new(alloc, fails);
    let code = code_of_script(rt, alloc, TWO_ENDPOINTS, &mut source, &mut sink, &mut regs);
    let text = repeated(rt, alloc, &[b"bus fault undone\n", CREATED], 1);
    let made = (call as usize).saturating_sub(3);
    let told = sink.bytes() == text.as_slice();
    let goes_on = goes_back_and_on(regs.trail(), made);
    drop(source);
    drop(sink);
    drop(regs);
    code == 0 && told && goes_on
}

/// Whether so many words of a create go before those that take them back, and all of it after them.
fn goes_back_and_on(trail: &[Sent], made: usize) -> bool {
    let twice = made.saturating_add(made);
    if trail.len() != twice.saturating_add(34) {
        return false;
    }
    let last_back = twice.saturating_add(1);
    let first_again = twice.saturating_add(2);
    for i in 0..made {
        let Some(word) = trail.get(i.saturating_add(2)) else {
            return false;
        };
        let Some(back) = trail.get(last_back.saturating_sub(i)) else {
            return false;
        };
        let Some(again) = trail.get(first_again.saturating_add(i)) else {
            return false;
        };
        if *word != *again || word.node != back.node || word.off != back.off {
            return false;
        }
    }
    true
}

#[test]
fn each_write_of_a_create_fails(rt: HostRuntime) {
    for call in 3..35 {
        row_passes_at(
            &rt,
            "failing call",
            call as usize,
            is_undone(&rt, rt.alloc(), call),
        );
    }
}
