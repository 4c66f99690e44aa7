//! Ports are bytes.

ghost use Rattle.std.specs.Prelude.{◌≡◌, ◌<◌, Some, length};
ghost use Rattle.cxl_topo.specs.declared.node.Parent.{Parent};
ghost use Rattle.cxl_topo.specs.Tree.{parent_of};
ghost use Rattle.cxl_legal.specs.Used.{HasBytePorts};

use cxl_topo::Topo;

/// The ports of a program's nodes are bytes. Does nothing but read them, so that a caller can rest on the laws
/// that ask for it.
pub fn ports_are_bytes(topo: &Topo)
    ensures { HasBytePorts topo.now.nodes }
{
    for node in 0..topo.count() {
        port_is_byte(topo, node);
    }
}

/// The port of one node is a byte.
fn port_is_byte(topo: &Topo, node: u32)
    requires { node < length topo.now.nodes }
    ensures { (parent : Parent) → parent_of topo.now.nodes node ≡ Some parent → parent.port < 256 }
{
    if let Some(parent) = topo.node(node).parent {
        is_byte(parent.port);
    }
}

fn is_byte(port: u8)
    ensures { port < 256 }
{}
