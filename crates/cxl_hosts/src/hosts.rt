//! Worked hosts: their nodes, their tables, and images that are made by register writes.

ghost use Rattle.std.specs.Prelude.{◌≡◌, ◌≤◌, ◌*◌, List, length, sum_by, IsTrue};
ghost use Rattle.cxl_table.specs.Records.{record_length};
ghost use Rattle.cxl_topo.specs.declared.node.Node.{Node};
ghost use Rattle.cxl_window.specs.Windows.{AreMadeWith};
ghost use Rattle.cxl_image.specs.Images.{HasCapsOf};
ghost use Rattle.cxl_model.specs.System.{bridge_uids};

use crate::rows::{as_byte, as_word, at, numbers};
use cxl_cedt::{Cedt, Cfmws, Chbs, Cxims, Head, Record};
use cxl_enc::{Name, code_of};
use cxl_image::Image;
use cxl_regs::{
    BASE_HIGH, BASE_LOW, CONTROL, Decoder, GLOBAL_CONTROL, SIZE_HIGH, SIZE_LOW, TAIL_HIGH,
    TAIL_LOW, offset_of, words_of,
};
use cxl_topo::{Capacity, Node, NodeKind, Parent, Topo};
use cxl_window::{Window, windows};
use std::alloc::Global;
use std::process::Abort;

/// 256 MiB.
const UNIT: u64 = 0x1000_0000;

/// The capability word of a bridge that forwards.
const PLACEHOLDER: u32 = 0x10;

/// The words of a decoder in the order in which they are written.
const WRITTEN: [u32; 7] = [
    BASE_LOW, BASE_HIGH, SIZE_LOW, SIZE_HIGH, TAIL_LOW, TAIL_HIGH, CONTROL,
];

const HEAD: Head = Head {
    revision: 1,
    oem_id: [0; 6],
    oem_table: [0; 8],
    oem_revision: 0,
    creator: [0; 4],
    creator_revision: 0,
};

// ---- its nodes and its table
//
// A host is written in three texts, each a list with commas between its items, which are numbers.
// A node: its capability word, where that of a placeholder is a bridge's that forwards; the number of its parent and
// the port there, where it has a parent; and its bytes of ram and of pmem, where it is an endpoint. A bridge's UID is
// its number.
// A window: base, size, granularity code, 1 for XOR arithmetic, restrictions, and the bridges that it lists.
// Decoders that are committed, one of each of the nodes from a first up to an end: the two nodes, the decoder's number,
// base, size, the codes of ways and granularity as they stand in the control word, and the target list of a port or
// the skip of an endpoint.

fn nodes_of(rt: &impl Abort, alloc: Global, text: &str) -> Vec<Node> {
    let mut nodes = Vec::new(alloc);
    for (i, item) in text.split(',').enumerate() {
        let node = node_of(rt, i, &numbers(rt, alloc, item));
        nodes.push(node).expect(rt, "memory");
    }
    nodes
}

fn node_of(rt: &impl Abort, i: usize, item: &[u64]) -> Node {
    let letters = [b'n', b'a' + (i / 26 % 26) as u8, b'a' + (i % 26) as u8];
    Node {
        name: Name::read(&letters).expect(rt, "a name"),
        kind: kind_of(rt, i, item),
        parent: parent_of(rt, item),
        cap: as_word(rt, item, 0),
        forwards: as_word(rt, item, 0) == PLACEHOLDER,
    }
}

fn parent_of(rt: &impl Abort, item: &[u64]) -> Option<Parent> {
    if item.len() > 1 {
        Some(Parent {
            node: as_word(rt, item, 1),
            port: as_byte(rt, item, 2),
        })
    } else {
        None
    }
}

fn kind_of(rt: &impl Abort, i: usize, item: &[u64]) -> NodeKind {
    if item.len() > 3 {
        NodeKind::Endpoint(Capacity {
            ram: at(rt, item, 3),
            pmem: at(rt, item, 4),
        })
    } else if item.len() > 1 {
        NodeKind::Switch
    } else {
        NodeKind::Bridge((i % 64) as u32)
    }
}

/// The table with so many bridges, the windows, and a map of 256 bytes.
fn table_of_windows(rt: &impl Abort, alloc: Global, text: &str, bridges: u32) -> Cedt {
    let mut records = Vec::new(alloc);
    put_bridges(rt, &mut records, bridges);
    put_windows(rt, alloc, &mut records, text);
    put_map(rt, alloc, &mut records);
    assert!(rt; records.len() <= 64 && are_short(&records));
    Cedt::new(HEAD, records)
}

fn put_bridges(rt: &impl Abort, records: &mut Vec<Record>, bridges: u32) {
    for uid in 0..bridges {
        let bridge = Record::Chbs(Chbs {
            uid,
            version: 1,
            base: 0x8000_0000,
            length: 0x1_0000,
        });
        records.push(bridge).expect(rt, "memory");
    }
}

fn put_windows(rt: &impl Abort, alloc: Global, records: &mut Vec<Record>, text: &str) {
    for item in text.split(',') {
        let window = window_record(rt, alloc, &numbers(rt, alloc, item));
        records.push(window).expect(rt, "memory");
    }
}

fn put_map(rt: &impl Abort, alloc: Global, records: &mut Vec<Record>) {
    let maps = [0x40_4100].to_vec(alloc).expect(rt, "memory");
    let map = Record::Cxims(Cxims::new(0, maps));
    records.push(map).expect(rt, "memory");
}

/// The bridges that a window lists.
fn targets_of(rt: &impl Abort, alloc: Global, item: &[u64]) -> Vec<u32> {
    let mut targets = Vec::new(alloc);
    for i in 5..item.len() {
        targets.push(as_word(rt, item, i)).expect(rt, "memory");
    }
    targets
}

fn window_record(rt: &impl Abort, alloc: Global, item: &[u64]) -> Record {
    let targets = targets_of(rt, alloc, item);
    let gran = as_byte(rt, item, 2);
    assert!(rt; targets.len() <= 16 && gran <= 6);
    let ways = code_of(targets.len() as u8).expect(rt, "a number of ways");
    Record::Cfmws(Cfmws::new(
        at(rt, item, 0),
        at(rt, item, 1),
        ways,
        at(rt, item, 3) == 1,
        gran,
        u16::try_from(as_word(rt, item, 4)).expect(rt, "restrictions"),
        0,
        targets,
    ))
}

/// Whether no record has more than 2,048 bytes.
fn are_short(records: &[Record]) -> bool
    ensures { IsTrue result → sum_by record_length records.now ≤ 2048 * length records.now }
{
    for item in records {
        if length_of(item) > 2_048 {
            return false;
        }
    }
    true
}

fn length_of(item: &Record) -> usize
    ensures { result ≡ record_length item.now }
{
    match item {
        Record::Chbs(_) => 32,
        Record::Cfmws(cfmws) => 36 + 4 * cfmws.targets().len(),
        Record::Cxims(cxims) => 8 + 8 * cxims.maps().len(),
        Record::Other(other) => 4 + other.body().len(),
    }
}

// ---- the whole host

/// A worked host: its tree of nodes, its windows, and an image of its registers.
#[derive(Drop)]
pub(crate) struct Worked {
    pub(crate) topo: Topo,
    pub(crate) windows: Vec<Window>,
    pub(crate) image: Image,
}

/// The host of these nodes under these windows, with these decoders committed.
pub(crate) fn host_of(
    rt: &impl Abort,
    alloc: Global,
    nodes: &str,
    spans: &str,
    ranges: &str,
) -> Worked
    ensures caps { HasCapsOf result.image result.topo.nodes }
    ensures made { AreMadeWith result.windows.items (bridge_uids result.topo.nodes) }
{
    let topo = Topo::new(alloc, nodes_of(rt, alloc, nodes), 65_536).expect(rt, "a tree");
    assert!(rt; topo.uids().len() <= 16);
    let table = table_of_windows(rt, alloc, spans, topo.uids().len() as u32);
    let windows = windows_of(rt, alloc, &table, topo.uids());
    let mut image = image_of(rt, alloc, &topo);
    commit_all(rt, alloc, &mut image, ranges);
    drop(table);
    Worked {
        topo,
        windows,
        image,
    }
}

/// The windows of a table over these bridges.
pub(crate) fn windows_of(rt: &impl Abort, alloc: Global, table: &Cedt, uids: &[u32]) -> Vec<Window>
    ensures { AreMadeWith result.items uids.now }
{
    match windows(alloc, table, Some(uids)) {
        Ok(windows) => windows,
        Err(_) => panic!(rt; "memory"),
    }
}

/// The image of a tree after reset.
fn image_of(rt: &impl Abort, alloc: Global, topo: &Topo) -> Image
    ensures { HasCapsOf result topo.now.nodes }
{
    match Image::new(alloc, topo) {
        Ok(image) => image,
        Err(_) => panic!(rt; "memory"),
    }
}

// ---- its image

/// Commits the decoders by register writes.
fn commit_all(rt: &impl Abort, alloc: Global, image: &mut Image, text: &str)
    ensures { (nodes : List Node) → HasCapsOf image.old nodes → HasCapsOf image.new nodes }
{
    for range in text.split(',') {
        commit_each(rt, image, &numbers(rt, alloc, range));
    }
}

fn commit_each(rt: &impl Abort, image: &mut Image, range: &[u64])
    ensures { (nodes : List Node) → HasCapsOf image.old nodes → HasCapsOf image.new nodes }
{
    if range.is_empty() {
        return;
    }
    for node in as_word(rt, range, 0)..as_word(rt, range, 1) {
        commit(rt, image, range, node);
    }
}

/// Commits a decoder of host memory by register writes, its control last.
fn commit(rt: &impl Abort, image: &mut Image, range: &[u64], node: u32)
    ensures { (nodes : List Node) → HasCapsOf image.old nodes → HasCapsOf image.new nodes }
{
    let base = at(rt, range, 3);
    let size = at(rt, range, 4);
    let codes = as_byte(rt, range, 5);
    assert!(rt; base % UNIT == 0 && size % UNIT == 0);
    let words = words_of(&Decoder {
        base,
        size,
        ways: codes / 16,
        gran: codes % 16,
        commit: true,
        host_only: true,
        tail: at(rt, range, 6),
        ..Decoder::RESET
    });
    write_word(image, node, GLOBAL_CONTROL, 2);
    for place in WRITTEN {
        write_word(
            image,
            node,
            offset_of(as_byte(rt, range, 2), place),
            words[place as usize],
        );
    }
}

/// Writes a word, where there is such a node.
fn write_word(image: &mut Image, node: u32, off: u32, value: u32)
    ensures { (nodes : List Node) → HasCapsOf image.old nodes → HasCapsOf image.new nodes }
{
    if node < image.count() {
        image.write32(node, off, value);
    }
}
