//! The first cause of images of worked hosts, one row of each kind of cause that a person worked out from the rules.

use crate::breaches::{Word, changed};
use crate::host_texts::{
    ONE_OF_BOTH_KINDS, OVER_ONE, OVER_THREE_LONG, OVER_TWO, OVER_TWO_LONG, THREE_BY_ONE,
    TWO_BY_ONE, TWO_BY_TWO, TWO_FORWARDING, TWO_WAYS,
};
use crate::hosts::host_of;
use crate::rows::row_passes;
use cxl_cause::{Cause, causes};
use cxl_enc::MemKind;
use cxl_image::Image;
use cxl_regs::Range;
use cxl_window::Verdict;
use std::alloc::Global;
use std::process::Abort;

/// A name, the nodes of the host and those of the image, the windows over both, the decoders that are committed in the image, other
/// words of its file, and the first cause, at the node and the decoder that break the image's first broken rule first.
struct Row {
    name: &'static str,
    nodes: &'static str,
    own: &'static str,
    windows: &'static str,
    ranges: &'static str,
    words: &'static [Word],
    node: u32,
    decoder: u8,
    cause: Cause,
}

fn image_of(rt: &impl Abort, alloc: Global, row: &Row) -> Image {
    let other = host_of(rt, alloc, row.own, row.windows, row.ranges);
    let image = changed(rt, alloc, &other, row.words);
    drop(other);
    image
}

fn is_cause(rt: &impl Abort, alloc: Global, row: &Row) -> bool {
    let host = host_of(rt, alloc, row.nodes, row.windows, "");
    let image = image_of(rt, alloc, row);
    let all = causes(alloc, &image, &host.topo, &host.windows).expect(rt, "memory");
    drop(image);
    drop(host);
    match all.first() {
        Some(first) => {
            first.breach.node == row.node
                && first.breach.decoder == row.decoder
                && first.cause == row.cause
        }
        None => false,
    }
}

/// Checks each row.
fn are_causes(rt: &(impl Abort + AllocGlobal), rows: &[Row]) {
    for row in rows {
        row_passes(rt, row.name, is_cause(rt, rt.alloc(), row));
    }
}

#[test]
fn first_causes_of_blocks(rt: HostRuntime) {
    are_causes(&rt, OF_BLOCKS);
    are_causes(&rt, OF_SIZES);
}

#[test]
fn first_causes_of_ranges(rt: HostRuntime) {
    are_causes(&rt, OF_WINDOWS);
    are_causes(&rt, OF_PATHS);
    are_causes(&rt, OF_WAYS);
}

/// K1 to K5. The blocks of four nodes begin at bytes 12, 156, 300 and 444, and the control word of their first decoder 32 bytes further.
const OF_BLOCKS: &[Row] = &[
    Row {
        name: "a bridge that cannot select on its decoder's bits",
        nodes: "0x382, 0x182, 0x1b02 0 0 0x80000000 0, 0x1b02 1 0 0x80000000 0",
        own: TWO_BY_ONE,
        windows: OVER_TWO,
        ranges: TWO_WAYS,
        words: &[],
        node: 1,
        decoder: 0,
        cause: Cause::Capability {
            found: 0x382,
            wanted: 0x182,
        },
    },
    Row {
        name: "three blocks over four nodes",
        nodes: TWO_BY_ONE,
        own: "0x382, 0x382, 0x1b02 0 0 0x80000000 0",
        windows: OVER_TWO,
        ranges: "",
        words: &[],
        node: 0,
        decoder: 0,
        cause: Cause::BlockCount {
            found: 3,
            wanted: 4,
        },
    },
    Row {
        name: "a second decoder above one that is not committed",
        nodes: TWO_BY_ONE,
        own: TWO_BY_ONE,
        windows: OVER_TWO,
        ranges: "",
        words: &[Word(352, 1), Word(356, 0x2000_0000), Word(364, 0x1610)],
        node: 2,
        decoder: 1,
        cause: Cause::NotCommittedBelow,
    },
    Row {
        name: "an endpoint that does not decode",
        nodes: TWO_BY_ONE,
        own: TWO_BY_ONE,
        windows: OVER_TWO,
        ranges: TWO_WAYS,
        words: &[Word(304, 0)],
        node: 2,
        decoder: 0,
        cause: Cause::NotDecoding,
    },
    Row {
        name: "an error bit",
        nodes: TWO_BY_ONE,
        own: TWO_BY_ONE,
        windows: OVER_TWO,
        ranges: TWO_WAYS,
        words: &[Word(476, 0x1e10)],
        node: 3,
        decoder: 0,
        cause: Cause::ErrorSet,
    },
    Row {
        name: "commit alone",
        nodes: TWO_BY_ONE,
        own: TWO_BY_ONE,
        windows: OVER_TWO,
        ranges: TWO_WAYS,
        words: &[Word(364, 0x200)],
        node: 2,
        decoder: 1,
        cause: Cause::CommitAlone,
    },
    Row {
        name: "committed alone",
        nodes: TWO_BY_ONE,
        own: TWO_BY_ONE,
        windows: OVER_TWO,
        ranges: TWO_WAYS,
        words: &[Word(476, 0x1410)],
        node: 3,
        decoder: 0,
        cause: Cause::CommittedAlone,
    },
    Row {
        name: "a range that is not for the host alone",
        nodes: TWO_BY_ONE,
        own: TWO_BY_ONE,
        windows: OVER_TWO,
        ranges: TWO_WAYS,
        words: &[Word(476, 0x610)],
        node: 3,
        decoder: 0,
        cause: Cause::NotHostOnly,
    },
    Row {
        name: "an unknown granularity code",
        nodes: TWO_BY_ONE,
        own: TWO_BY_ONE,
        windows: OVER_TWO,
        ranges: TWO_WAYS,
        words: &[Word(332, 0x1677)],
        node: 2,
        decoder: 0,
        cause: Cause::GranularityCode {
            code: 7,
            cap: 0x1b02,
        },
    },
    Row {
        name: "an unknown code of ways",
        nodes: TWO_BY_ONE,
        own: TWO_BY_ONE,
        windows: OVER_TWO,
        ranges: TWO_WAYS,
        words: &[Word(332, 0x1670)],
        node: 2,
        decoder: 0,
        cause: Cause::WaysCode {
            code: 7,
            cap: 0x1b02,
        },
    },
    Row {
        name: "sixteen ways without their bit",
        nodes: "0x382, 0x302 0 0 0x80000000 0",
        own: "0x382, 0x302 0 0 0x80000000 0",
        windows: OVER_ONE,
        ranges: "0 1 0 0x100000000 0x20000000 0 0, 1 2 0 0x100000000 0x20000000 0 0",
        words: &[Word(188, 0x1640)],
        node: 1,
        decoder: 0,
        cause: Cause::WaysLacked {
            code: 4,
            cap: 0x302,
        },
    },
    Row {
        name: "sixteen ways at a bridge",
        nodes: TWO_BY_ONE,
        own: TWO_BY_ONE,
        windows: OVER_TWO,
        ranges: TWO_WAYS,
        words: &[Word(44, 0x1640)],
        node: 0,
        decoder: 0,
        cause: Cause::WaysOfNoPort {
            code: 4,
            cap: 0x382,
        },
    },
    Row {
        name: "two ways at a bridge of one target",
        nodes: "0x312, 0x1b02 0 0 0x80000000 0",
        own: "0x312, 0x1b02 0 0 0x80000000 0",
        windows: OVER_ONE,
        ranges: "0 1 0 0x100000000 0x20000000 0 0, 1 2 0 0x100000000 0x20000000 0 0",
        words: &[Word(44, 0x1610)],
        node: 0,
        decoder: 0,
        cause: Cause::TooFewTargets {
            code: 1,
            cap: 0x312,
        },
    },
    Row {
        name: "four ways at 16 KiB",
        nodes: TWO_BY_ONE,
        own: TWO_BY_ONE,
        windows: OVER_TWO,
        ranges: TWO_WAYS,
        words: &[Word(332, 0x1626)],
        node: 2,
        decoder: 0,
        cause: Cause::SelectBit {
            bit: 15,
            cap: 0x1b02,
        },
    },
];

/// K6 to K8, as above.
const OF_SIZES: &[Row] = &[
    Row {
        name: "no bytes",
        nodes: TWO_BY_ONE,
        own: TWO_BY_ONE,
        windows: OVER_TWO,
        ranges: TWO_WAYS,
        words: &[Word(324, 0)],
        node: 2,
        decoder: 0,
        cause: Cause::NoBytes,
    },
    Row {
        name: "a base at the address limit",
        nodes: TWO_BY_ONE,
        own: TWO_BY_ONE,
        windows: OVER_TWO,
        ranges: TWO_WAYS,
        words: &[Word(316, 0), Word(320, 0x10_0000)],
        node: 2,
        decoder: 0,
        cause: Cause::PastLimit {
            base: 0x10_0000_0000_0000,
            size: 0x2000_0000,
        },
    },
    Row {
        name: "shares of half of 256 MiB",
        nodes: TWO_BY_ONE,
        own: TWO_BY_ONE,
        windows: OVER_TWO,
        ranges: TWO_WAYS,
        words: &[Word(324, 0x1000_0000)],
        node: 2,
        decoder: 0,
        cause: Cause::Uneven {
            size: 0x1000_0000,
            unit: 0x2000_0000,
            below: None,
            above: Some(0x2000_0000),
        },
    },
    Row {
        name: "shares of one and a half of 256 MiB",
        nodes: TWO_BY_ONE,
        own: TWO_BY_ONE,
        windows: OVER_TWO,
        ranges: TWO_WAYS,
        words: &[Word(324, 0x3000_0000)],
        node: 2,
        decoder: 0,
        cause: Cause::Uneven {
            size: 0x3000_0000,
            unit: 0x2000_0000,
            below: Some(0x2000_0000),
            above: Some(0x4000_0000),
        },
    },
    Row {
        name: "a second decoder at the base of the first",
        nodes: TWO_BY_ONE,
        own: TWO_BY_ONE,
        windows: OVER_TWO,
        ranges: TWO_WAYS,
        words: &[Word(352, 1), Word(356, 0x2000_0000), Word(364, 0x1610)],
        node: 2,
        decoder: 1,
        cause: Cause::Under {
            below: Range {
                base: 0x1_0000_0000,
                size: 0x2000_0000,
            },
        },
    },
    Row {
        name: "a share larger than the endpoint's memory",
        nodes: TWO_BY_ONE,
        own: TWO_BY_ONE,
        windows: OVER_TWO,
        ranges: TWO_WAYS,
        words: &[Word(324, 0), Word(328, 2)],
        node: 2,
        decoder: 0,
        cause: Cause::PastRam {
            start: 0,
            len: 0x1_0000_0000,
            end: 0x8000_0000,
            fitting: Some(4),
        },
    },
    Row {
        name: "a span across the end of ram",
        nodes: ONE_OF_BOTH_KINDS,
        own: ONE_OF_BOTH_KINDS,
        windows: OVER_ONE,
        ranges: "0 1 0 0x100000000 0x50000000 0 0, 1 2 0 0x100000000 0x50000000 0 0",
        words: &[],
        node: 1,
        decoder: 0,
        cause: Cause::AcrossPartitions {
            start: 0,
            len: 0x5000_0000,
            end: 0x4000_0000,
            fitting: Some(2),
        },
    },
    Row {
        name: "a span past the end of pmem",
        nodes: ONE_OF_BOTH_KINDS,
        own: ONE_OF_BOTH_KINDS,
        windows: OVER_ONE,
        ranges: "0 1 0 0x100000000 0x50000000 0 0, 1 2 0 0x100000000 0x50000000 0 0x40000000",
        words: &[],
        node: 1,
        decoder: 0,
        cause: Cause::PastPmem {
            start: 0x4000_0000,
            len: 0x5000_0000,
            end: 0x8000_0000,
            fitting: Some(2),
        },
    },
];

/// K9, as above.
const OF_WINDOWS: &[Row] = &[
    Row {
        name: "a range in no window",
        nodes: TWO_BY_ONE,
        own: TWO_BY_ONE,
        windows: OVER_TWO,
        ranges: TWO_WAYS,
        words: &[Word(320, 2)],
        node: 2,
        decoder: 0,
        cause: Cause::NoWindow,
    },
    Row {
        name: "a window of half the bytes that its ways ask for",
        nodes: TWO_BY_ONE,
        own: TWO_BY_ONE,
        windows: "0x100000000 0x10000000 0 0 0x000e 0 1",
        ranges: TWO_WAYS,
        words: &[],
        node: 0,
        decoder: 0,
        cause: Cause::UnusableWindow {
            window: 0,
            verdict: Verdict::Size,
        },
    },
    Row {
        name: "a range across the window's end",
        nodes: TWO_BY_ONE,
        own: TWO_BY_ONE,
        windows: OVER_TWO,
        ranges: TWO_WAYS,
        words: &[Word(316, 0xf000_0000)],
        node: 2,
        decoder: 0,
        cause: Cause::AcrossWindow {
            window: 0,
            end: 0x2_0000_0000,
        },
    },
    Row {
        name: "a base between thirds",
        nodes: THREE_BY_ONE,
        own: THREE_BY_ONE,
        windows: OVER_THREE_LONG,
        ranges: "0 3 0 0x110000000 0x30000000 0 0, 3 6 0 0x110000000 0x30000000 0x80 0",
        words: &[],
        node: 0,
        decoder: 0,
        cause: Cause::NotInThirds {
            window: 0,
            next: 0x1_3000_0000,
        },
    },
    Row {
        name: "ram in a window for pmem",
        nodes: TWO_BY_ONE,
        own: TWO_BY_ONE,
        windows: "0x100000000 0x100000000 0 0 0x000a 0 1",
        ranges: TWO_WAYS,
        words: &[],
        node: 2,
        decoder: 0,
        cause: Cause::KindForbidden {
            window: 0,
            kind: MemKind::Ram,
            restrict: 0x000a,
        },
    },
];

/// K10 and K11, as above.
const OF_PATHS: &[Row] = &[
    Row {
        name: "one port twice",
        nodes: TWO_BY_TWO,
        own: TWO_BY_TWO,
        windows: OVER_TWO_LONG,
        ranges: "0 2 0 0x1000000000 0x40000000 0x11 0, 2 6 0 0x1000000000 0x40000000 0x20 0",
        words: &[],
        node: 0,
        decoder: 0,
        cause: Cause::SamePort { entry: 0, other: 1 },
    },
    Row {
        name: "a port without a child",
        nodes: TWO_BY_ONE,
        own: TWO_BY_ONE,
        windows: OVER_TWO,
        ranges: "0 2 0 0x100000000 0x20000000 0 1, 2 4 0 0x100000000 0x20000000 0x10 0",
        words: &[],
        node: 0,
        decoder: 0,
        cause: Cause::NoChild { entry: 0, port: 1 },
    },
    Row {
        name: "an endpoint without the range",
        nodes: TWO_BY_ONE,
        own: TWO_BY_ONE,
        windows: OVER_TWO,
        ranges: TWO_WAYS,
        words: &[Word(332, 0x1000)],
        node: 0,
        decoder: 0,
        cause: Cause::NotServed {
            entry: 0,
            landing: 2,
        },
    },
    Row {
        name: "a bridge that forwards to nothing",
        nodes: "0x382, 0x10, 0x1b02 0 0 0x80000000 0",
        own: "0x382, 0x10, 0x1b02 0 0 0x80000000 0",
        windows: OVER_TWO,
        ranges: "0 1 0 0x100000000 0x20000000 0 0, 2 3 0 0x100000000 0x20000000 0x10 0",
        words: &[],
        node: 0,
        decoder: 0,
        cause: Cause::TargetWithoutLanding {
            window: 0,
            uid: 1,
            bridge: 1,
        },
    },
    Row {
        name: "a bridge of the window without the range",
        nodes: TWO_BY_ONE,
        own: TWO_BY_ONE,
        windows: OVER_TWO,
        ranges: TWO_WAYS,
        words: &[Word(188, 0x1000)],
        node: 0,
        decoder: 0,
        cause: Cause::TargetNotServed {
            window: 0,
            uid: 1,
            landing: 1,
        },
    },
    Row {
        name: "a bridge that forwards and decodes",
        nodes: TWO_FORWARDING,
        own: TWO_FORWARDING,
        windows: OVER_TWO,
        ranges: "2 4 0 0x100000000 0x20000000 0x10 0, 0 1 0 0x100000000 0x20000000 0 0",
        words: &[],
        node: 0,
        decoder: 0,
        cause: Cause::Forwards,
    },
    Row {
        name: "a range to which no bridge leads",
        nodes: TWO_BY_ONE,
        own: TWO_BY_ONE,
        windows: OVER_TWO,
        ranges: TWO_WAYS,
        words: &[
            Word(348, 0x2000_0000),
            Word(352, 1),
            Word(356, 0x2000_0000),
            Word(364, 0x1610),
        ],
        node: 2,
        decoder: 1,
        cause: Cause::ParentLacksRange { parent: 0 },
    },
    Row {
        name: "an endpoint at a port that its bridge does not list",
        nodes: TWO_BY_TWO,
        own: TWO_BY_TWO,
        windows: OVER_ONE,
        ranges: "0 1 0 0x100000000 0x20000000 0 0, 2 4 0 0x100000000 0x20000000 0 0",
        words: &[],
        node: 3,
        decoder: 0,
        cause: Cause::ParentDoesNotList { parent: 0, port: 1 },
    },
    Row {
        name: "a bridge that the window does not target",
        nodes: TWO_BY_ONE,
        own: TWO_BY_ONE,
        windows: OVER_ONE,
        ranges: "0 2 0 0x100000000 0x20000000 0 0, 2 4 0 0x100000000 0x20000000 0 0",
        words: &[],
        node: 1,
        decoder: 0,
        cause: Cause::NotTargeted { window: 0, uid: 1 },
    },
];

/// K12, as above.
const OF_WAYS: &[Row] = &[
    Row {
        name: "endpoints of one way below a bridge of two",
        nodes: TWO_BY_TWO,
        own: TWO_BY_TWO,
        windows: OVER_ONE,
        ranges: "0 1 0 0x100000000 0x20000000 0x10 0x0100, 2 4 0 0x100000000 0x20000000 0x03 0",
        words: &[],
        node: 2,
        decoder: 0,
        cause: Cause::Ways {
            found: 1,
            wanted: 2,
        },
    },
    Row {
        name: "two ways beside four",
        nodes: "0x382, 0x382 0 1, 0x1b02 0 0 0x40000000 0, 0x1b02 1 0 0x40000000 0, 0x1b02 1 1 0x40000000 0",
        own: "0x382, 0x382 0 1, 0x1b02 0 0 0x40000000 0, 0x1b02 1 0 0x40000000 0, 0x1b02 1 1 0x40000000 0",
        windows: OVER_ONE,
        ranges: "0 1 0 0x100000000 0x40000000 0x10 0x0100, 1 2 0 0x100000000 0x40000000 0x11 0x0100, 2 3 0 0x100000000 0x40000000 0x10 0, 3 5 0 0x100000000 0x40000000 0x20 0",
        words: &[],
        node: 3,
        decoder: 0,
        cause: Cause::WaysOfFirst {
            found: 4,
            wanted: 2,
            first: Some(2),
        },
    },
    Row {
        name: "pmem beside ram",
        nodes: "0x382, 0x382, 0x1b02 0 0 0x80000000 0, 0x1b02 1 0 0 0x80000000",
        own: "0x382, 0x382, 0x1b02 0 0 0x80000000 0, 0x1b02 1 0 0 0x80000000",
        windows: OVER_TWO,
        ranges: TWO_WAYS,
        words: &[],
        node: 3,
        decoder: 0,
        cause: Cause::KindOfFirst {
            found: MemKind::Pmem,
            wanted: MemKind::Ram,
            first: Some(2),
        },
    },
    Row {
        name: "another granularity than the window's",
        nodes: TWO_BY_ONE,
        own: TWO_BY_ONE,
        windows: OVER_TWO,
        ranges: TWO_WAYS,
        words: &[Word(332, 0x1611)],
        node: 2,
        decoder: 0,
        cause: Cause::Granularity {
            found: 1,
            wanted: 0,
            first: Some(2),
        },
    },
    Row {
        name: "another granularity at a switch than below its bridge",
        nodes: "0x382, 0x382 0 1, 0x1b02 0 0 0x40000000 0, 0x1b02 1 0 0x40000000 0, 0x1b02 1 1 0x40000000 0",
        own: "0x382, 0x382 0 1, 0x1b02 0 0 0x40000000 0, 0x1b02 1 0 0x40000000 0, 0x1b02 1 1 0x40000000 0",
        windows: OVER_ONE,
        ranges: "0 1 0 0x100000000 0x40000000 0x10 0x0100, 1 2 0 0x100000000 0x40000000 0x10 0x0100, 2 3 0 0x100000000 0x40000000 0x10 0, 3 5 0 0x100000000 0x40000000 0x20 0",
        words: &[],
        node: 1,
        decoder: 0,
        cause: Cause::Granularity {
            found: 0,
            wanted: 1,
            first: Some(2),
        },
    },
];
