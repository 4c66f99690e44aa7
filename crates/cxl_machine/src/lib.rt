//! The machine that a session stands for: what each command is answered, which words it writes, what a script comes
//! to, and the laws of these.
#![tactic(auto)]

mod counting;
mod fault;
mod keeping;
mod laws;
mod limits;
mod pending;
mod texts;

pub use counting::frames_are_counted;
pub use cxl_check::Breach;
pub use fault::OpenFault;
pub use keeping::{
    accesses_keep_machines, asked_creates_begin_as_machines, asked_creates_have_their_plans,
    commands_keep_machines, creates_are_legal, creates_begin_as_machines,
    finished_jobs_keep_machines, openings_are_machines, refused_creates_have_causes,
    releases_begin_as_machines, steps_keep_machines, undone_jobs_keep_machines,
};
pub use laws::{
    commands_go_as_they_can, each_command_is_answered, each_outcome_is_answered,
    failed_calls_are_numbered, jobs_have_one_list_of_writes, one_answer, only_short_replies_change,
    outcomes_show_in_replies, refusals_leave_the_machine, refusals_write_nothing, scripts_go_on,
};
pub use limits::REGION_LIMIT;
pub use pending::{
    ended_jobs_leave_nothing, live_regions_stay, pending_jobs_settle, pending_regions_are_unmapped,
    words_pass_by_machines,
};
pub use texts::answers_are_told;
