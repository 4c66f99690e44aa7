//! What a host's files hold, as lines.

use crate::common::row_passes;
use cxl_io::MemSink;
use cxl_reads::{Status, breaches, decoders, tree};
use std::alloc::Global;
use std::process::Abort;

mod windows;

/// A bridge, a switch with one decoder and two targets, and an endpoint of 1 GiB.
const TOPOLOGY: &[u8] = b"frames = 8
[[bridge]]
name = \"hb0\"
uid = 7
decoders = 2
[[switch]]
name = \"s0\"
parent = \"hb0\"
port = 0
decoders = 1
targets = 2
high = false
[[endpoint]]
name = \"ep0\"
parent = \"s0\"
port = 2
decoders = 1
ram = 0x40000000
";

/// Two bridges, of which the topology has the first alone, and a window over each.
const TABLE: [u8; 180] = [
    0x43, 0x45, 0x44, 0x54, 0xb4, 0x00, 0x00, 0x00, 0x01, 0x11, 0x00, 0x00, 0x00, 0x00, 0x00, 0x00,
    0x00, 0x00, 0x00, 0x00, 0x00, 0x00, 0x00, 0x00, 0x00, 0x00, 0x00, 0x00, 0x00, 0x00, 0x00, 0x00,
    0x00, 0x00, 0x00, 0x00, 0x00, 0x00, 0x20, 0x00, 0x07, 0x00, 0x00, 0x00, 0x01, 0x00, 0x00, 0x00,
    0x00, 0x00, 0x00, 0x00, 0x00, 0x00, 0x07, 0x80, 0x00, 0x00, 0x00, 0x00, 0x00, 0x00, 0x01, 0x00,
    0x00, 0x00, 0x00, 0x00, 0x00, 0x00, 0x20, 0x00, 0x09, 0x00, 0x00, 0x00, 0x01, 0x00, 0x00, 0x00,
    0x00, 0x00, 0x00, 0x00, 0x00, 0x00, 0x09, 0x80, 0x00, 0x00, 0x00, 0x00, 0x00, 0x00, 0x01, 0x00,
    0x00, 0x00, 0x00, 0x00, 0x01, 0x00, 0x28, 0x00, 0x00, 0x00, 0x00, 0x00, 0x00, 0x00, 0x00, 0x00,
    0x01, 0x00, 0x00, 0x00, 0x00, 0x00, 0x00, 0x10, 0x00, 0x00, 0x00, 0x00, 0x00, 0x00, 0x00, 0x00,
    0x00, 0x00, 0x00, 0x00, 0x0e, 0x00, 0x00, 0x00, 0x07, 0x00, 0x00, 0x00, 0x01, 0x00, 0x28, 0x00,
    0x00, 0x00, 0x00, 0x00, 0x00, 0x00, 0x00, 0x00, 0x02, 0x00, 0x00, 0x00, 0x00, 0x00, 0x00, 0x20,
    0x00, 0x00, 0x00, 0x00, 0x00, 0x00, 0x00, 0x00, 0x00, 0x00, 0x00, 0x00, 0x0e, 0x00, 0x05, 0x00,
    0x09, 0x00, 0x00, 0x00,
];

/// The words of an image behind its magic: the number of nodes, and the words of each block. The endpoint's decoder has a ways code
/// that stands for nothing, and its last commit failed.
const WORDS: [u32; 45] = [
    3, // the bridge
    0x381,
    0,
    0,
    0, //
    0x1000_0000,
    1,
    0x2000_0000,
    0,
    0x1611,
    0x0300,
    0,
    0, //
    0,
    0,
    0,
    0,
    0,
    0,
    0,
    0, // the switch
    0x120,
    0,
    0,
    0, //
    0,
    0,
    0,
    0,
    0x0003,
    0x0201,
    0,
    0, // the endpoint
    0x1b00,
    2,
    0,
    0, //
    0,
    0,
    0xf000_0000,
    0,
    0x0d7f,
    0x1000_0000,
    1,
    0,
];

fn image_of(rt: &impl Abort, alloc: Global, words: &[u32]) -> Vec<u8> {
    let mut bytes = Vec::from_slice(alloc, b"CXLHDM01").expect(rt, "memory");
    for word in words {
        bytes
            .extend_from_slice(&word.to_le_bytes())
            .expect(rt, "memory");
    }
    bytes
}

fn sink(rt: &impl Abort, alloc: Global, room: u32) -> MemSink {
    MemSink::new(alloc, room, Vec::new(alloc)).expect(rt, "memory")
}

/// Whether the decoders of these files are told by this status, and in these lines.
fn tells(rt: &impl Abort, alloc: Global, topo: &[u8], image: &[u8], code: u8, lines: &str) -> bool {
    let mut out = sink(rt, alloc, 4096);
    let status = decoders(alloc, topo, image, &mut out);
    let told = took(&out, lines);
    drop(out);
    status.code() == code && told
}

#[test]
fn decoders_of_any_image(rt: HostRuntime) {
    let image = image_of(&rt, rt.alloc(), &WORDS);
    are_told(&rt, rt.alloc(), &image);
    let long = image_of(&rt, rt.alloc(), &[0; 262_143]);
    is_too_large(&rt, rt.alloc(), &long);
}

/// An image, a front of it, and the image beside a file that holds no topology.
fn are_told(rt: &impl Abort, alloc: Global, image: &[u8]) {
    let told = tells(rt, alloc, TOPOLOGY, image, 0, BLOCKS);
    row_passes(rt, "an image", told);
    assert!(rt; image.len() >= 11);
    let told = tells(
        rt,
        alloc,
        TOPOLOGY,
        &image[..11],
        10,
        "error: image cut 11\n",
    );
    row_passes(rt, "a cut image", told);
    let told = tells(rt, alloc, b"[", image, 4, "error: topology toml\n");
    row_passes(rt, "no topology", told);
}

fn is_too_large(rt: &impl Abort, alloc: Global, image: &[u8]) {
    let told = tells(rt, alloc, TOPOLOGY, image, 12, "error: image too large\n");
    row_passes(rt, "a long image", told);
}

const BLOCKS: &str = "\
block 0 hb0 cap 0x381 control 0x0
decoder hb0 0 base 0x110000000 size 0x20000000 ways 2 gran 512 codes 1 1 lock 0 commit 1 committed 1 error 0 host-only 1 targets 0,3 words 10000000 00000001 20000000 00000000 00001611 00000300 00000000 00000000
decoder hb0 1 base 0x0 size 0x0 ways 1 gran 256 codes 0 0 lock 0 commit 0 committed 0 error 0 host-only 0 targets 0 words 00000000 00000000 00000000 00000000 00000000 00000000 00000000 00000000
block 1 s0 cap 0x120 control 0x0
decoder s0 0 base 0x0 size 0x0 ways 1 gran 2048 codes 0 3 lock 0 commit 0 committed 0 error 0 host-only 0 targets 1 words 00000000 00000000 00000000 00000000 00000003 00000201 00000000 00000000
block 2 ep0 cap 0x1b00 control 0x2
decoder ep0 0 base 0x0 size 0xf0000000 ways 1 gran 8388608 codes 7 15 lock 1 commit 0 committed 1 error 1 host-only 0 skip 0x110000000 words 00000000 00000000 f0000000 00000000 00000d7f 10000000 00000001 00000000
";

/// The same image with each flag set in a decoder of its own: lock, error, commit, and host-only with committed.
#[test]
fn flags_apart(rt: HostRuntime) {
    let mut words = WORDS;
    words[9] = 0x0100;
    words[17] = 0x0800;
    words[29] = 0x0200;
    words[41] = 0x1400;
    let image = image_of(&rt, rt.alloc(), &words);
    let told = tells(&rt, rt.alloc(), TOPOLOGY, &image, 0, FLAGS);
    row_passes(&rt, "flags apart", told);
}

const FLAGS: &str = "\
block 0 hb0 cap 0x381 control 0x0
decoder hb0 0 base 0x110000000 size 0x20000000 ways 1 gran 256 codes 0 0 lock 1 commit 0 committed 0 error 0 host-only 0 targets 0 words 10000000 00000001 20000000 00000000 00000100 00000300 00000000 00000000
decoder hb0 1 base 0x0 size 0x0 ways 1 gran 256 codes 0 0 lock 0 commit 0 committed 0 error 1 host-only 0 targets 0 words 00000000 00000000 00000000 00000000 00000800 00000000 00000000 00000000
block 1 s0 cap 0x120 control 0x0
decoder s0 0 base 0x0 size 0x0 ways 1 gran 256 codes 0 0 lock 0 commit 1 committed 0 error 0 host-only 0 targets 1 words 00000000 00000000 00000000 00000000 00000200 00000201 00000000 00000000
block 2 ep0 cap 0x1b00 control 0x2
decoder ep0 0 base 0x0 size 0xf0000000 ways 1 gran 256 codes 0 0 lock 0 commit 0 committed 1 error 0 host-only 1 skip 0x110000000 words 00000000 00000000 f0000000 00000000 00001400 10000000 00000001 00000000
";

/// Nodes whose fields differ from their neighbours'.
const APART: &[u8] = b"[[bridge]]
name = \"hb0\"
uid = 7
low = false
[[bridge]]
name = \"hb1\"
uid = 9
passthrough = true
[[endpoint]]
name = \"a\"
parent = \"hb0\"
port = 3
ways3 = false
ram = 0x10000000
pmem = 0x20000000
[[endpoint]]
name = \"b\"
parent = \"hb0\"
port = 1
ways16 = false
decoders = 10
pmem = 0x30000000
";

#[test]
fn fields_apart(rt: HostRuntime) {
    let mut out = sink(&rt, rt.alloc(), 4096);
    let status = tree(rt.alloc(), APART, &mut out);
    row_passes(&rt, "the status of fields apart", status.code() == 0);
    row_passes(&rt, "fields apart", took(&out, FIELDS));
    drop(out);
}

const FIELDS: &str = "\
frames 65536
node 0 hb0 bridge uid 7 cap 0x282 decoders 4 targets 8 low 0 high 1 ways3 0 ways16 0 passthrough 0
node 1 hb1 bridge uid 9 cap 0x10 decoders 1 targets 1 low 0 high 0 ways3 0 ways16 0 passthrough 1
node 2 a endpoint ram 0x10000000 pmem 0x20000000 parent hb0 port 3 cap 0x1302 decoders 4 targets 0 low 1 high 1 ways3 0 ways16 1 passthrough 0
node 3 b endpoint ram 0x0 pmem 0x30000000 parent hb0 port 1 cap 0xb05 decoders 10 targets 0 low 1 high 1 ways3 1 ways16 0 passthrough 0
";

#[test]
fn a_topology(rt: HostRuntime) {
    let mut out = sink(&rt, rt.alloc(), 4096);
    tells_nodes(&rt, rt.alloc(), &mut out);
    let mut short = sink(&rt, rt.alloc(), 4);
    tells_a_front(&rt, rt.alloc(), &mut short);
}

/// Whether a sink took this text.
fn took(out: &MemSink, text: &str) -> bool {
    out.bytes() == text.as_bytes()
}

fn tells_nodes(rt: &impl Abort, alloc: Global, out: &mut MemSink) {
    let status = tree(alloc, TOPOLOGY, out);
    row_passes(rt, "the status of a topology", status.code() == 0);
    row_passes(rt, "the lines of a topology", took(out, NODES));
}

/// The front of the lines in a room of four bytes.
fn tells_a_front(rt: &impl Abort, alloc: Global, out: &mut MemSink) {
    let status = tree(alloc, TOPOLOGY, out);
    row_passes(rt, "the status in a short room", is_write_fault(&status));
    row_passes(rt, "what a short room takes", took(out, "fram"));
}

fn is_write_fault(status: &Status) -> bool {
    matches!(status, Status::WriteFault)
}

const NODES: &str = "\
frames 8
node 0 hb0 bridge uid 7 cap 0x381 decoders 2 targets 8 low 1 high 1 ways3 0 ways16 0 passthrough 0
node 1 s0 switch parent hb0 port 0 cap 0x120 decoders 1 targets 2 low 1 high 0 ways3 0 ways16 0 passthrough 0
node 2 ep0 endpoint ram 0x40000000 pmem 0x0 parent s0 port 2 cap 0x1b00 decoders 1 targets 0 low 1 high 1 ways3 1 ways16 1 passthrough 0
";

/// Whether the places that break the first broken rule of these files are told by this status, and in these lines.
fn tells_places(
    rt: &impl Abort,
    alloc: Global,
    cedt: &[u8],
    image: &[u8],
    code: u8,
    lines: &str,
) -> bool {
    let mut out = sink(rt, alloc, 4096);
    let status = breaches(alloc, cedt, TOPOLOGY, image, &mut out);
    let told = took(&out, lines);
    drop(out);
    status.code() == code && told
}

/// The same of the image of these words.
fn tells_places_of(rt: &impl Abort, alloc: Global, words: &[u32], code: u8, lines: &str) -> bool {
    let image = image_of(rt, alloc, words);
    tells_places(rt, alloc, &TABLE, &image, code, lines)
}

#[test]
fn places_of_an_image(rt: HostRuntime) {
    let mut words = WORDS;
    words[17] = 0x0800; // the bridge's second decoder has an error
    words[29] = 0x0203; // the switch's is asked to commit
    let told = tells_places_of(&rt, rt.alloc(), &words, 8, PLACES);
    row_passes(&rt, "a broken image", told);
    words[9] = 0;
    words[17] = 0;
    words[29] = 0;
    words[41] = 0;
    let told = tells_places_of(&rt, rt.alloc(), &words, 0, "");
    row_passes(&rt, "an accepted image", told);
    are_refused(&rt, rt.alloc());
}

/// Files that hold no table and no image.
fn are_refused(rt: &impl Abort, alloc: Global) {
    let told = tells_places(rt, alloc, b"CEDT", b"", 3, "error: table short\n");
    row_passes(rt, "no table", told);
    let told = tells_places(rt, alloc, &TABLE, b"", 10, "error: image cut 0\n");
    row_passes(rt, "no image", told);
}

const PLACES: &str = "\
breach K3 hb0 1
breach K3 s0 0
breach K3 ep0 0
";
