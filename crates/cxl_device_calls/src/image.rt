//! Images of registers and their files: what of a file counts, and writes. Faults of files stand in `worked/faults`.

use crate::common::{row_passes, rows};
use cxl_image::{Image, image_laws, one_image_reading, read_image, write_image};
use cxl_regs::Effect;
use cxl_topo::Topo;
use cxl_topofile::read_topo;
use std::alloc::Global;
use std::process::Abort;
use std::test::*;

/// Two bridges with an endpoint each.
const NODES: &str = "bridge = [{ name = \"hb0\", uid = 0 }, { name = \"hb1\", uid = 1 }]
endpoint = [{ name = \"e0\", parent = \"hb0\", port = 0, ram = 0x80000000 },
  { name = \"e1\", parent = \"hb1\", port = 0, ram = 0x80000000 }]
";

fn topology(rt: &impl Abort, alloc: Global) -> Topo {
    read_topo(alloc, NODES.as_bytes())
        .ok()
        .expect(rt, "a topology")
}

/// The bytes of the file of an image after reset, with these bytes at their places.
fn reset_file(rt: &impl Abort, alloc: Global, topo: &Topo, bytes: &[(usize, u8)]) -> Vec<u8> {
    let image = Image::new(alloc, topo).expect(rt, "memory");
    let mut file = write_image(alloc, &image).expect(rt, "memory");
    drop(image);
    for (at, byte) in bytes {
        *file.get_mut(*at).expect(rt, "a place in the file") = *byte;
    }
    file
}

/// Whether an image is written as these bytes.
fn has_text(rt: &impl Abort, alloc: Global, image: &Image, want: &[u8]) -> bool {
    write_image(alloc, image).expect(rt, "memory").as_slice() == want
}

/// Whether a file is read, and written as these bytes.
fn is_written(rt: &impl Abort, alloc: Global, topo: &Topo, bytes: &[u8], want: &[u8]) -> bool {
    let image = read_image(alloc, bytes, topo).ok().expect(rt, "an image");
    let written = has_text(rt, alloc, &image, want);
    drop(image);
    written
}

fn is_reset_file(bytes: &[u8]) -> bool {
    bytes.len() == 588 && bytes.starts_with(b"CXLHDM01\x04\x00\x00\x00\x82\x03\x00\x00")
}

#[test]
fn the_reset_file(rt: HostRuntime) {
    let alloc = rt.alloc();
    let topo = topology(&rt, alloc);
    let whole = reset_file(&rt, alloc, &topo, &[]);
    assert!(rt; is_reset_file(&whole));
    assert!(rt; is_written(&rt, alloc, &topo, &whole, &whole));
    for row in DROPPED {
        let bytes = reset_file(&rt, alloc, &topo, &[(row.at, row.byte)]);
        row_passes(&rt, row.name, is_written(&rt, alloc, &topo, &bytes, &whole));
    }
    drop(whole);
    drop(topo);
}

#[test]
fn laws() {
    one_image_reading();
    image_laws();
}

/// A byte of the reset file that is read as the reset image, and its place.
struct Dropped {
    name: &'static str,
    at: usize,
    byte: u8,
}

const DROPPED: &[Dropped] = rows! {
    Dropped { name, at, byte };
    "bit 10 of a capability word", 13, 0x07;
    "bit 31 of a capability word", 15, 0x80;
    "a port's word 0x4", 16, 0x02;
    "a word that is reserved", 20, 0xff;
    "the low bits of a base", 28, 0xff;
    "a bit of a control that is reserved", 46, 0x01;
    "a decoder's last word", 56, 0xff;
    "the low bits of an endpoint's skip", 336, 0xff;
};

/// Whether the second decoder of a node is committed, for host addresses only, and of this size.
fn has_second(image: &Image, node: u32, size: u64) -> bool {
    if node >= image.count() || image.block(node).count() < 2 {
        return false;
    }
    let decoder = image.block(node).decoder(1);
    decoder.committed && decoder.host_only && decoder.size == size
}

/// A decoder that is committed behind one that is not: no writes lead to it, and a file may hold it.
#[test]
fn any_registers_are_read(rt: HostRuntime) {
    let alloc = rt.alloc();
    let topo = topology(&rt, alloc);
    let bytes = reset_file(&rt, alloc, &topo, &[(365, 0x14), (361, 0x20)]);
    let image = read_image(alloc, &bytes, &topo)
        .ok()
        .expect(&rt, "an image");
    assert!(rt; has_text(&rt, alloc, &image, &bytes));
    assert!(rt; has_second(&image, 2, 0x2000_0000_0000));
    drop(image);
    drop(bytes);
    drop(topo);
}

/// Whether a write to the third node has this effect.
fn writes(image: &mut Image, off: u32, value: u32, effect: Effect) -> bool {
    2 < image.count() && image.write32(2, off, value) == effect
}

/// It is enabled, and gets a size.
fn writes_three(image: &mut Image) -> bool {
    writes(image, 0x04, 0x2, Effect::Written)
        && writes(image, 0x18, 0x1234_5678, Effect::Written)
        && writes(image, 0x08, 0x1, Effect::Dropped)
}

#[test]
fn writes_one_block(rt: HostRuntime) {
    let alloc = rt.alloc();
    let topo = topology(&rt, alloc);
    let mut image = Image::new(alloc, &topo).expect(&rt, "memory");
    assert!(rt; image.blocks().len() == 4 && writes_three(&mut image));
    let copy = image.copy(alloc).expect(&rt, "memory");
    let want = reset_file(&rt, alloc, &topo, &[(304, 0x02), (327, 0x10)]);
    assert!(rt; has_text(&rt, alloc, &copy, &want));
    drop(want);
    drop(copy);
    drop(image);
    drop(topo);
}
