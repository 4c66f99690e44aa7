//! Laws of what can be told, each the contract of a function that does nothing.

ghost use Rattle.cxl_script.specs.declared.command.Command.{Command};
ghost use Rattle.cxl_script.specs.Grammar.{IsRanged};
ghost use Rattle.cxl_reply.specs.Conditions.{IsTold};
ghost use Rattle.cxl_machine.specs.Machine.{Machine};
ghost use Rattle.cxl_machine.specs.Outcomes.{BusOutcome};
ghost use Rattle.cxl_machine.specs.Replies.{Answer};
ghost use Rattle.cxl_machine.specs.Answers.{Answers};
ghost use Rattle.cxl_machine.specs.Sound.{IsMachine};

use crate::keeping::{asked_creates_begin_as_machines, releases_begin_as_machines};
use cxl_apply::regions_stay_after_a_create;
use cxl_model::{bytes_are_carried_one_to_one, weaves_fill_their_regions};
use cxl_range::extents_carry_their_bytes;
use cxl_reply::findings_are_told;
use cxl_request::answered_lines_can_be_told;
use cxl_topo::tree_laws;

/// A law of answers: each can be told, over the machine's nodes.
pub fn answers_are_told()
    ensures { (m : Machine) (command : Command) (outcome : BusOutcome) (answer : Answer) → IsMachine m
        → IsRanged command → Answers m command outcome answer → IsTold m.settled.nodes answer.reply }
{
    findings_are_told();
    regions_stay_after_a_create();
    answered_lines_can_be_told();
    bytes_are_carried_one_to_one();
    weaves_fill_their_regions();
    extents_carry_their_bytes();
    tree_laws();
    asked_creates_begin_as_machines();
    releases_begin_as_machines();
}
