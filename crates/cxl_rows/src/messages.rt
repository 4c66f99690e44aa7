//! The messages of errors that are derived: one for each cause.

use crate::rows::row_passes;
use cxl_cedt::CedtFault;
use cxl_image::ImageFault;
use cxl_topo::TreeFault;
use cxl_topofile::{Key, Section, TableKey, TopoFault};
use std::alloc::Global;
use std::fmt::Display;

const SPEED: TableKey = TableKey {
    section: Section::Endpoint,
    index: 1,
    key: Key::Unknown,
};

/// Whether this is the message of a fault.
fn is_said<T: Display>(alloc: Global, fault: &T, text: &str) -> bool {
    match format!(in alloc; "{fault}") {
        Ok(said) => said.as_str() == text,
        Err(_) => false,
    }
}

#[test]
fn of_tables(rt: HostRuntime) {
    for (fault, text) in OF_TABLES.iter() {
        row_passes(&rt, *text, is_said(rt.alloc(), fault, *text));
    }
}

const OF_TABLES: [(CedtFault, &str); 11] = [
    (CedtFault::Short, "the table is shorter than its header"),
    (CedtFault::Signature, "the signature is not CEDT"),
    (
        CedtFault::Length,
        "the length field is not the number of bytes",
    ),
    (CedtFault::Checksum, "the bytes do not sum to 0 modulo 256"),
    (
        CedtFault::RecordCut(36),
        "the record at byte 36 passes the end of the table",
    ),
    (
        CedtFault::RecordLength(36),
        "the record at byte 36 has a wrong length",
    ),
    (
        CedtFault::WaysCode(100),
        "the window at byte 100 has an unknown ways code",
    ),
    (
        CedtFault::GranCode(100),
        "the record at byte 100 has an unknown granularity code",
    ),
    (
        CedtFault::Arithmetic(100),
        "the window at byte 100 has an unknown arithmetic",
    ),
    (
        CedtFault::TooMany(2084),
        "the record at byte 2084 is the 65th of its type",
    ),
    (CedtFault::Memory, "out of memory"),
];

#[test]
fn of_images(rt: HostRuntime) {
    for (fault, text) in OF_IMAGES.iter() {
        row_passes(&rt, *text, is_said(rt.alloc(), fault, *text));
    }
}

const OF_IMAGES: [(ImageFault, &str); 6] = [
    (ImageFault::Magic, "the file does not begin with CXLHDM01"),
    (
        ImageFault::Cut(11),
        "the file ends after 11 bytes, before its last field does",
    ),
    (ImageFault::Nodes(5), "the file is for 5 nodes"),
    (
        ImageFault::Caps(2),
        "the capability word of node 2 is not that of the topology",
    ),
    (
        ImageFault::Trailing(588),
        "bytes follow the last block, from byte 588 on",
    ),
    (ImageFault::Memory, "out of memory"),
];

#[test]
fn of_topologies(rt: HostRuntime) {
    for (fault, text) in OF_TOPOLOGIES.iter() {
        row_passes(&rt, *text, is_said(rt.alloc(), fault, *text));
    }
}

const OF_TOPOLOGIES: [(TopoFault, &str); 6] = [
    (TopoFault::Toml, "no TOML document"),
    (
        TopoFault::Key(SPEED),
        "a key is missing or unknown: endpoint 1 unknown",
    ),
    (
        TopoFault::Kind(SPEED),
        "a value is of the wrong kind: endpoint 1 unknown",
    ),
    (
        TopoFault::Range(SPEED),
        "a value is out of range: endpoint 1 unknown",
    ),
    (
        TopoFault::Tree(TreeFault::NoParent(3)),
        "the nodes are no legal tree: node 3 does not stand under an earlier bridge or switch, or is a bridge under another node",
    ),
    (TopoFault::Memory, "out of memory"),
];
