//! A session that a program keeps: how it opens, what its lines are answered, which words they sent, and its image.

ghost use Rattle.cxl_held.specs.Sessions.{IsKept};

use crate::host_files::TWO_ENDPOINTS;
use crate::rows::{ROOM, bytes, files_of, sink_of};
use crate::tables::TWO_BRIDGES;
use cxl_bus::Sent;
use cxl_held::Held;
use cxl_io::{MemFetch, MemSink, MemSource};
use cxl_shell::Status;
use std::alloc::Global;
use std::process::Abort;

/// Two bridges with an endpoint each, and an image of these bytes.
fn files(rt: &impl Abort, alloc: Global, image: &[u8]) -> MemFetch {
    let table = bytes(rt, alloc, TWO_BRIDGES);
    let image = Vec::from_slice(alloc, image).expect(rt, "memory");
    files_of(rt, alloc, table, TWO_ENDPOINTS, image, 0)
}

fn sink(rt: &impl Abort, alloc: Global) -> MemSink {
    sink_of(rt, alloc, ROOM, 0)
}

/// A session on the host after reset, which asks for each of two files once.
fn opened(rt: &impl Abort, alloc: Global, out: &mut MemSink) -> Held
    ensures { IsKept result }
{
    let mut files = files(rt, alloc, b"");
    let held = match Held::open_from_reset(alloc, "table", "topology", &mut files, out) {
        Ok(held) => held,
        Err(_) => panic!(rt; "it opens"),
    };
    assert!(rt;
        files.asked().len() == 2,
        "each of two files is asked for once"
    );
    drop(files);
    held
}

/// The same on an image, which asks for each of three files once.
fn opened_on(rt: &impl Abort, alloc: Global, image: &[u8], out: &mut MemSink) -> Held
    ensures { IsKept result }
{
    let mut files = files(rt, alloc, image);
    let held = match Held::open_from_image(alloc, "table", "topology", "image", &mut files, out) {
        Ok(held) => held,
        Err(_) => panic!(rt; "it opens on an image"),
    };
    assert!(rt;
        files.asked().len() == 3,
        "each of three files is asked for once"
    );
    drop(files);
    held
}

/// Carries out lines, which end so.
fn act(rt: &impl Abort, alloc: Global, held: &mut Held, text: &str, code: u8, out: &mut MemSink)
    requires { IsKept held.old }
    ensures { IsKept held.new }
{
    let mut lines = lines(rt, alloc, text);
    let status = held.act(alloc, &mut lines, out);
    drop(lines);
    assert!(rt; status.code() == code, "status of {text}");
}

fn lines(rt: &impl Abort, alloc: Global, text: &str) -> MemSource {
    let bytes = Vec::from_slice(alloc, text.as_bytes()).expect(rt, "memory");
    MemSource::new(bytes, Vec::new(alloc))
}

const CREATE: &str = "create r0 ram 0x20000000 e0 e1\n";

const CREATED: &str = "created r0 window 0 base 0x100000000 size 0x20000000 gran 256 ways 2\n";

const SHOWN: &str = "\
region r0 ram window 0 base 0x100000000 size 0x20000000 gran 256 ways 2\n\
node hb0 0 00000000 00000001 20000000 00000000 00001600 00000000 00000000\n\
node hb1 0 00000000 00000001 20000000 00000000 00001600 00000000 00000000\n\
node e0 0 00000000 00000001 20000000 00000000 00001610 00000000 00000000\n\
node e1 0 00000000 00000001 20000000 00000000 00001610 00000000 00000000\n\
slot 0 e0 0x0\n\
slot 1 e1 0x0\n";

const LED_DOWN: &str =
    "down 0x100000100 region auto0 slot 1 position 1 via hb1:0:0 endpoint e1 dpa 0x0\n";

/// Checks that these are the words of a create.
fn are_of_a_create(rt: &impl Abort, words: &[Sent]) {
    assert!(rt; words.len() == 32, "eight words a decoder");
    assert!(rt; words[0].off == 0x10, "a base comes first");
    assert!(rt; words[1].off == 0x14 && words[1].value == 1, "it is 4 GiB");
}

/// The words of a create, as the session tells them, and none of a load.
fn tells_its_words(rt: &impl Abort, alloc: Global, held: &mut Held, out: &mut MemSink)
    requires { IsKept held.old }
    ensures { IsKept held.new }
{
    assert!(rt; held.words().len() == 2, "a word lets each endpoint decode");
    act(rt, alloc, held, CREATE, 0, out);
    assert!(rt; out.bytes() == CREATED.as_bytes(), "the reply");
    are_of_a_create(rt, held.words());
    act(rt, alloc, held, "load 0x100000000 1\n", 0, out);
    assert!(rt; held.words().is_empty(), "a load sends no word");
}

/// A session opens on the image that another left: its region is there.
#[test]
fn a_session_is_kept(rt: HostRuntime) {
    let alloc = rt.alloc();
    let mut out = sink(&rt, alloc);
    let mut held = opened(&rt, alloc, &mut out);
    tells_its_words(&rt, alloc, &mut held, &mut out);
    let image = held.image(alloc).expect(&rt, "memory");
    drop(held);
    let mut again = sink(&rt, alloc);
    let mut held = opened_on(&rt, alloc, &image, &mut again);
    act(&rt, alloc, &mut held, "down 0x100000100\n", 0, &mut again);
    assert!(rt; again.bytes() == LED_DOWN.as_bytes(), "the way down");
    drop(held);
    drop(again);
    drop(out);
}

/// What is told of a session behind lines that were passed.
fn shows_and_ends(rt: &impl Abort, alloc: Global, held: &mut Held)
    requires { IsKept held.old }
    ensures { IsKept held.new }
{
    let mut out = sink(rt, alloc);
    act(rt, alloc, held, "show r0\n", 0, &mut out);
    assert!(rt; out.bytes() == SHOWN.as_bytes(), "its registers");
    act(rt, alloc, held, "destroy r0\n", 0, &mut out);
    assert!(rt; held.words().len() == 4, "a word a decoder");
    drop(out);
}

#[test]
fn lines_are_passed(rt: HostRuntime) {
    let alloc = rt.alloc();
    let mut out = sink(&rt, alloc);
    let held = opened(&rt, alloc, &mut out);
    let mut create = lines(&rt, alloc, CREATE);
    match held.pass(alloc, &mut create, &mut out) {
        Ok(mut held) => {
            assert!(rt; held.words().is_empty(), "no word is told");
            shows_and_ends(&rt, alloc, &mut held);
            drop(held);
        }
        Err(_) => panic!(&rt; "it comes to its end"),
    }
    assert!(rt; out.bytes() == CREATED.as_bytes(), "the reply");
    drop(create);
    drop(out);
}

/// The image with a granularity code of the first endpoint's decoder that is not the window's.
fn broken(rt: &impl Abort, alloc: Global, image: &[u8]) -> Vec<u8> {
    let mut changed = Vec::from_slice(alloc, image).expect(rt, "memory");
    *changed.get_mut(332).expect(rt, "a control word") = 0x11;
    changed
}

/// The image behind a create.
fn image_of_a_region(rt: &impl Abort, alloc: Global) -> Vec<u8> {
    let mut out = sink(rt, alloc);
    let mut held = opened(rt, alloc, &mut out);
    act(rt, alloc, &mut held, CREATE, 0, &mut out);
    let image = held.image(alloc).expect(rt, "memory");
    drop(held);
    drop(out);
    image
}

/// The exit status with which no session opens; one that does is let go.
fn code_of(opened: Result<Held, Status>) -> u8 {
    match opened {
        Ok(held) => {
            drop(held);
            0
        }
        Err(status) => status.code(),
    }
}

#[test]
fn a_breach_is_told(rt: HostRuntime) {
    let alloc = rt.alloc();
    let image = broken(&rt, alloc, &image_of_a_region(&rt, alloc));
    let mut files = files(&rt, alloc, &image);
    let mut out = sink(&rt, alloc);
    let opened = Held::open_from_image(alloc, "table", "topology", "image", &mut files, &mut out);
    assert!(rt; code_of(opened) == 8, "status");
    assert!(rt;
        out.bytes() == b"breach K12 e0 0\n".as_slice(),
        "the breach"
    );
    drop(files);
    drop(out);
}

#[test]
fn lines_that_fail_are_not_passed(rt: HostRuntime) {
    let alloc = rt.alloc();
    let mut out = sink(&rt, alloc);
    let held = opened(&rt, alloc, &mut out);
    let fails = Vec::from_slice(alloc, &[1]).expect(&rt, "memory");
    let mut unread = MemSource::new(Vec::new(alloc), fails);
    let passed = held.pass(alloc, &mut unread, &mut out);
    assert!(rt; code_of(passed) == 5, "status");
    drop(unread);
    drop(out);
}

#[test]
fn a_faulty_table_is_told(rt: HostRuntime) {
    let alloc = rt.alloc();
    let mut out = sink(&rt, alloc);
    let mut files = MemFetch::new(Vec::new(alloc), Vec::new(alloc));
    let opened = Held::open_from_reset(alloc, "table", "topology", &mut files, &mut out);
    assert!(rt; code_of(opened) == 2, "status");
    drop(files);
    drop(out);
}
