//! What a file states, before and after its tables are read.

use crate::draft::Draft;
use cxl_topo::Node;
use toml::Value;

/// The top table of a file: the frames, and the tables of each kind of node.
#[derive(Clone, Copy)]
pub(crate) struct Top<'a> {
    pub frames: u32,
    pub bridges: &'a [Value],
    pub switches: &'a [Value],
    pub endpoints: &'a [Value],
}

/// All nodes of a file in order, of which the bridges come first, and the frames.
#[derive(Drop)]
pub(crate) struct Stated {
    pub bridges: Vec<Node>,
    pub drafts: Vec<Draft>,
    pub frames: u32,
}
