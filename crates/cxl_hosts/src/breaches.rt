//! Images of other nodes than the host's, and all places at which an image breaks its first broken rule.

ghost use Rattle.cxl_window.specs.Windows.{AreMadeWith};
ghost use Rattle.cxl_model.specs.System.{bridge_uids};

use crate::host_texts::{OVER_TWO, TWO_BY_ONE, TWO_BY_TWO, TWO_WAYS};
use crate::hosts::{Worked, host_of};
use crate::rows::{are_written, row_passes};
use cxl_check::{Breach, CheckFault, breaches, check};
use cxl_image::{Image, read_image, write_image};
use std::alloc::Global;
use std::process::Abort;

/// The second bridge cannot select on address bits 14:12.
const SECOND_WITHOUT_LOW_BITS: &str =
    "0x382, 0x182, 0x1b02 0 0 0x80000000 0, 0x1b02 1 0 0x80000000 0";

/// Two bridges, of which the second has no endpoint.
const SECOND_WITHOUT_ENDPOINT: &str = "0x382, 0x382, 0x1b02 0 0 0x80000000 0";

/// A byte place in the file of an image, and the word that begins there.
pub(crate) struct Word(pub usize, pub u32);

/// The host's image with other words.
pub(crate) fn changed(rt: &impl Abort, alloc: Global, host: &Worked, words: &[Word]) -> Image {
    let mut bytes = write_image(alloc, &host.image).expect(rt, "memory");
    for Word(place, word) in words {
        put_word(rt, &mut bytes, *place, *word);
    }
    assert!(rt; bytes.len() < 0x1_0000_0000);
    read_image(alloc, &bytes, &host.topo).expect(rt, "an image")
}

fn put_word(rt: &impl Abort, bytes: &mut [u8], place: usize, word: u32) {
    assert!(rt; place <= bytes.len() && bytes.len() - place >= 4);
    bytes[place..place + 4].copy_from_slice(&word.to_le_bytes());
}

/// Whether the image breaks this rule of the host first, by this node and decoder.
pub(crate) fn breaks(alloc: Global, host: &Worked, image: &Image, breach: Breach) -> bool
    requires { AreMadeWith host.now.windows.items (bridge_uids host.now.topo.nodes) }
{
    check(alloc, image, &host.topo, &host.windows).err() == Some(CheckFault::Breach(breach))
}

/// A name, the nodes of the host and those of the image, the windows over both, the decoders that are committed in the image,
/// other words of its file, and the rule, node and decoder of the breach.
struct Row {
    name: &'static str,
    nodes: &'static str,
    own: &'static str,
    windows: &'static str,
    ranges: &'static str,
    words: &'static [Word],
    rule: u8,
    node: u32,
    decoder: u8,
}

fn image_of(rt: &impl Abort, alloc: Global, row: &Row) -> Image {
    let other = host_of(rt, alloc, row.own, row.windows, row.ranges);
    let image = changed(rt, alloc, &other, row.words);
    drop(other);
    image
}

fn is_breach(rt: &impl Abort, alloc: Global, row: &Row) -> bool {
    let host = host_of(rt, alloc, row.nodes, row.windows, "");
    let image = image_of(rt, alloc, row);
    let breach = Breach {
        rule: row.rule,
        node: row.node,
        decoder: row.decoder,
    };
    let all = breaches(alloc, &image, &host.topo, &host.windows).expect(rt, "memory");
    let first = breaks(alloc, &host, &image, breach) && all.first().copied() == Some(breach);
    drop(image);
    drop(host);
    first
}

/// Checks each row.
fn are_breaches(rt: &(impl Abort + AllocGlobal), rows: &[Row]) {
    for row in rows {
        row_passes(rt, row.name, is_breach(rt, rt.alloc(), row));
    }
}

#[test]
fn images_of_other_nodes(rt: HostRuntime) {
    are_breaches(&rt, OTHER_NODES);
}

const OTHER_NODES: &[Row] = &[
    Row {
        name: "a bridge that cannot select on its decoder's bits",
        nodes: SECOND_WITHOUT_LOW_BITS,
        own: TWO_BY_ONE,
        windows: OVER_TWO,
        ranges: TWO_WAYS,
        words: &[],
        rule: 1,
        node: 1,
        decoder: 0,
    },
    Row {
        name: "three blocks over four nodes",
        nodes: TWO_BY_ONE,
        own: SECOND_WITHOUT_ENDPOINT,
        windows: OVER_TWO,
        ranges: "",
        words: &[],
        rule: 1,
        node: 0,
        decoder: 0,
    },
];

/// Two bridges that cannot select on address bits 14:12.
const BOTH_WITHOUT_LOW_BITS: &str =
    "0x182, 0x182, 0x1b02 0 0 0x80000000 0, 0x1b02 1 0 0x80000000 0";

/// Where an image over two bridges breaks its first broken rule: a name, the nodes of the host and those of the image, the
/// decoders that are committed, other words of the image, the rule, and node and decoder of each place.
struct Places {
    name: &'static str,
    nodes: &'static str,
    own: &'static str,
    ranges: &'static str,
    words: &'static [Word],
    rule: u8,
    places: &'static str,
}

fn are_places(rt: &impl Abort, alloc: Global, row: &Places) -> bool {
    let host = host_of(rt, alloc, row.nodes, OVER_TWO, "");
    let own = host_of(rt, alloc, row.own, OVER_TWO, row.ranges);
    let image = changed(rt, alloc, &own, row.words);
    let all = breaches(alloc, &image, &host.topo, &host.windows).expect(rt, "memory");
    drop(own);
    drop(image);
    drop(host);
    are_told(rt, alloc, &all, row)
}

/// Whether these breaches are of the row's rule, and at its places.
fn are_told(rt: &impl Abort, alloc: Global, all: &[Breach], row: &Places) -> bool {
    let mut of_rule = true;
    let mut told = Vec::new(alloc);
    for breach in all {
        of_rule = of_rule && breach.rule == row.rule;
        told.push(u64::from(breach.node)).expect(rt, "memory");
        told.push(u64::from(breach.decoder)).expect(rt, "memory");
    }
    of_rule && are_written(rt, alloc, &told, row.places)
}

#[test]
fn all_places(rt: HostRuntime) {
    for row in PLACES.iter() {
        row_passes(&rt, row.name, are_places(&rt, rt.alloc(), row));
    }
}

/// As above; a node's second decoder has its control word 32 bytes behind that of the first.
const PLACES: [Places; 7] = [
    Places {
        name: "no breach",
        nodes: TWO_BY_ONE,
        own: TWO_BY_ONE,
        ranges: TWO_WAYS,
        words: &[],
        rule: 0,
        places: "",
    },
    Places {
        name: "two bridges that cannot select on low bits",
        nodes: BOTH_WITHOUT_LOW_BITS,
        own: TWO_BY_ONE,
        ranges: TWO_WAYS,
        words: &[Word(332, 0x1670)],
        rule: 1,
        places: "0 0 1 0",
    },
    Places {
        name: "another number of blocks, told once",
        nodes: SECOND_WITHOUT_ENDPOINT,
        own: TWO_BY_ONE,
        ranges: TWO_WAYS,
        words: &[Word(332, 0x1670)],
        rule: 1,
        places: "0 0",
    },
    // An error bit in a decoder that is not committed, and a range that is not for the host alone; a code that K4 forbids is
    // no breach of the first broken rule.
    Places {
        name: "flags of three decoders",
        nodes: TWO_BY_ONE,
        own: TWO_BY_ONE,
        ranges: TWO_WAYS,
        words: &[
            Word(364, 0x800),
            Word(396, 0x800),
            Word(476, 0x610),
            Word(188, 0x1670),
        ],
        rule: 3,
        places: "2 1 2 2 3 0",
    },
    Places {
        name: "a granularity code that is not the window's",
        nodes: TWO_BY_ONE,
        own: TWO_BY_ONE,
        ranges: TWO_WAYS,
        words: &[Word(332, 0x1611), Word(476, 0x1611)],
        rule: 12,
        places: "2 0 3 0",
    },
    Places {
        name: "a range at which no window is",
        nodes: TWO_BY_ONE,
        own: TWO_BY_ONE,
        ranges: TWO_WAYS,
        words: &[Word(176, 2), Word(464, 2)],
        rule: 9,
        places: "1 0 3 0",
    },
    Places {
        name: "errors of all decoders",
        nodes: TWO_BY_TWO,
        own: TWO_BY_TWO,
        ranges: "",
        words: &[
            Word(44, 0x800),
            Word(76, 0x800),
            Word(108, 0x800),
            Word(140, 0x800),
            Word(188, 0x800),
            Word(220, 0x800),
            Word(252, 0x800),
            Word(284, 0x800),
            Word(332, 0x800),
            Word(364, 0x800),
            Word(396, 0x800),
            Word(428, 0x800),
            Word(476, 0x800),
            Word(508, 0x800),
            Word(540, 0x800),
            Word(572, 0x800),
            Word(620, 0x800),
            Word(652, 0x800),
            Word(684, 0x800),
            Word(716, 0x800),
            Word(764, 0x800),
            Word(796, 0x800),
            Word(828, 0x800),
            Word(860, 0x800),
        ],
        rule: 3,
        places: "0 0 0 1 0 2 0 3 1 0 1 1 1 2 1 3 2 0 2 1 2 2 2 3 \
         3 0 3 1 3 2 3 3 4 0 4 1 4 2 4 3 5 0 5 1 5 2 5 3",
    },
];
