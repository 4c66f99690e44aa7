//! The decoders of any image, also of one that breaks a rule.

ghost use Rattle.std.specs.Prelude.{◌≤◌};
ghost use Rattle.cxl_reads.specs.Answers.{ComesTo, IsAnswered};
ghost use Rattle.cxl_reads.specs.Decoders.{AreDecoders};

use crate::answers::{IMAGE, TOPOLOGY, told};
use crate::blocks::put_blocks;
use cxl_inputs::{Outcome, Status, Stop, finish, given_image, given_topology};
use cxl_io::Sink;
use std::alloc::Global;

/// Writes what stands in the decoder blocks of an image over a topology, as lines: a block's capability word and global control,
/// and behind it each of its decoders, by field and as words. It asks for no rule, so that an image that breaks one is told, too.
/// A file that has a fault is told as the program tells it. Where memory runs out, nothing is written.
pub fn decoders<K: Sink>(alloc: Global, topo: &[u8], image: &[u8], out: &mut K) -> Status
    ensures answer { IsAnswered (AreDecoders topo.now image.now) result (K.state out.old) (K.state out.new) }
    ensures counts { (K.state out.old).faults ≤ (K.state out.new).faults }
{
    finish(decoders_told(alloc, topo, image), out)
}

/// What telling them comes to.
fn decoders_told(alloc: Global, topo: &[u8], image: &[u8]) -> Result<Outcome, Stop>
    ensures { ComesTo (AreDecoders topo.now image.now) result }
{
    let topo = given_topology(alloc, TOPOLOGY, topo)?;
    let image = given_image(alloc, IMAGE, image, &topo)?;
    let mut text = Vec::new(alloc);
    put_blocks(&mut text, &image, &topo)?;
    Ok(told(text))
}
