//! What a node says of its block.

ghost use Rattle.std.specs.Prelude.{◌≡◌, ◌≤◌};
ghost use Rattle.cxl_image.specs.Fields.{block_size};

use cxl_regs::decoder_count;
use cxl_topo::Node;

/// How many bytes the words of the node's block take.
pub fn block_size(node: &Node) -> usize
    ensures size { result ≡ block_size node.now }
    ensures few { result ≤ 976 }
{
    16 + 32 * decoder_count(node.cap) as usize
}
