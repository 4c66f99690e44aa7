//! The law that each run behaves as flat memory.

ghost use Rattle.cxl_shell.specs.Headline.{BehavesAsFlatMemory};
ghost use Rattle.cxl_shell.specs.Run.{EachRun};

use cxl_flat::{
    accepted_images_carry_their_regions, lines_ask_for_ranged_commands,
    machines_carry_their_regions, turns_are_flat,
};
use cxl_gen::made_systems_are_sound;

/// A law of each run: it behaves as one flat byte memory for each region. Where `check` accepts an image, that carries the
/// host bytes of its regions, which are told, one to one onto device bytes, none of which serves two of them. Where a
/// session opened, so do the registers, before the first command, after each and between any two register writes; each
/// command is answered by that memory, and a refused one changes nothing. Where none opened, script, registers and device
/// memory are as they were, or these two could not be made ready.
pub fn runs_are_flat()
    ensures { EachRun BehavesAsFlatMemory }
{
    accepted_images_carry_their_regions();
    machines_carry_their_regions();
    lines_ask_for_ranged_commands();
    turns_are_flat();
    made_systems_are_sound();
}
