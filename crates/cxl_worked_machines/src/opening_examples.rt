//! What the definitions say of how a worked host opens and of machines that are sound, each the contract of a function that does nothing.

ghost use Rattle.std.specs.FinMap as map;
ghost use Rattle.cxl_worked.specs.Examples.{two_bridges};
ghost use Rattle.cxl_worked_machines.specs.Examples.{first_byte, making_beside, one_block, opened, opened_releasing, opened_with};
ghost use Rattle.cxl_machine.specs.Machine.{image_of};
ghost use Rattle.cxl_machine.specs.Sound.{IsSound, Opens};

use cxl_machine::commands_keep_machines;
use cxl_worked::{examples_are_systems, regions_on_examples, rules_on_examples};

/// A law of openings: an accepted image with one region opens as a machine with that region, which no byte is in. That
/// machine is sound over the image and empty media. So what is said of sound machines is said of something.
pub fn openings_on_examples()
    ensures opens { Opens two_bridges 2 opened }
    ensures sound { IsSound opened two_bridges.blocks record { blocks = map.empty; free = 2 } }
{
    examples_are_systems();
    rules_on_examples();
    regions_on_examples();
}

/// A law of machines: one that holds a piece is sound over the media that has its block, and so are the ones in the middle of
/// a create and of a release.
pub fn machines_with_bytes_on_examples()
    ensures stored { IsSound (opened_with first_byte) two_bridges.blocks one_block }
    ensures making { IsSound (making_beside 5) (image_of (making_beside 5)) one_block }
    ensures releasing { IsSound (opened_releasing 2) (image_of (opened_releasing 2)) one_block }
{
    openings_on_examples();
    commands_keep_machines();
}
