//! The first fault of an image file.

ghost use Rattle.std.specs.Prelude.{◌≡◌, ◌+◌, ◌<◌, ◌≤◌, length, IfSome, IfNone};
ghost use Rattle.cxl_topo.specs.Faults.{IsTree};
ghost use Rattle.cxl_image.specs.Fields.{start_of, end_of, has_magic};
ghost use Rattle.cxl_image.specs.File.{AgreesUpTo, IsFirstImageFault};

use crate::fault::ImageFault;
use crate::nodes::block_size;
use crate::words::{named_bits, word_from};
use cxl_topo::Topo;

/// The bytes that every image file begins with.
pub const MAGIC: &[u8; 8] = b"CXLHDM01";

/// The bytes before the first block: the magic, and the number of nodes.
pub const HEAD: usize = 12;

/// The first fault of a file, where it has one.
pub fn first_image_fault(bytes: &[u8], topo: &Topo) -> Option<ImageFault>
    ensures some { IfSome result (λ fault. IsFirstImageFault bytes.now topo.now.nodes fault) }
    ensures agrees { IfNone result (AgreesUpTo bytes.now topo.now.nodes (end_of topo.now.nodes)) }
    ensures whole { IfNone result (length bytes.now ≡ end_of topo.now.nodes) }
{
    if let Some(fault) = head_fault(bytes, topo) {
        return Some(fault);
    }
    let mut at = HEAD;
    for i in 0..topo.count() {
        if let Some(fault) = block_fault(bytes, topo, i, at) {
            return Some(fault);
        }
        at += block_size(topo.node(i));
    }
    if at < bytes.len() {
        return Some(ImageFault::Trailing(at as u32));
    }
    None
}

/// The first fault of the magic and the number of nodes.
fn head_fault(bytes: &[u8], topo: &Topo) -> Option<ImageFault>
    ensures some { IfSome result (λ fault. IsFirstImageFault bytes.now topo.now.nodes fault) }
    ensures agrees { IfNone result (AgreesUpTo bytes.now topo.now.nodes 12) }
    ensures whole { IfNone result (12 ≤ length bytes.now) }
{
    let len = bytes.len();
    if len < MAGIC.len() {
        return Some(ImageFault::Cut(len as u32));
    }
    if !has_magic(bytes) {
        return Some(ImageFault::Magic);
    }
    if len < HEAD {
        return Some(ImageFault::Cut(len as u32));
    }
    let said = word_from(bytes, MAGIC.len());
    if said != topo.count() {
        return Some(ImageFault::Nodes(said));
    }
    None
}

fn has_magic(bytes: &[u8]) -> bool
    ensures { result ≡ has_magic bytes.now }
{
    bytes.starts_with(MAGIC)
}

/// The first fault of the block of node `i`, which begins at byte place `at`, where nothing is wrong before.
fn block_fault(bytes: &[u8], topo: &Topo, i: u32, at: usize) -> Option<ImageFault>
    requires tree { IsTree topo.now.nodes }
    requires node { i < length topo.now.nodes }
    requires place { at ≡ start_of topo.now.nodes i }
    requires before { at ≤ length bytes.now }
    requires agrees { AgreesUpTo bytes.now topo.now.nodes at }
    ensures some { IfSome result (λ fault. IsFirstImageFault bytes.now topo.now.nodes fault) }
    ensures agrees { IfNone result (AgreesUpTo bytes.now topo.now.nodes (start_of topo.now.nodes (i + 1))) }
    ensures whole { IfNone result (start_of topo.now.nodes (i + 1) ≤ length bytes.now) }
{
    let node = topo.node(i);
    let len = bytes.len();
    if len < at + 4 {
        return Some(ImageFault::Cut(len as u32));
    }
    if named_bits(word_from(bytes, at)) != named_bits(node.cap) {
        return Some(ImageFault::Caps(i));
    }
    if len < at + block_size(node) {
        return Some(ImageFault::Cut(len as u32));
    }
    None
}
