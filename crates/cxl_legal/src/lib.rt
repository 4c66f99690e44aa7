//! Which requests have a legal plan in a window and at a base, as conditions on the nodes, the window and the
//! base, with the plan that is then stated; the laws that these are what a legal plan is; and the tests of one number
//! or one block that planner and picker both make.
#![tactic(auto)]

mod blocks;
mod laws;
mod ports;
mod terms;

pub use blocks::{is_full, last_end};
pub use laws::{
    fitting_plans_are_legal, legal_plans_add_one_range, legal_plans_fit, stated_rows_keep_blocks,
};
pub use ports::ports_are_bytes;
pub use terms::{agrees_on_gran, can_have_ways, is_size, is_ways};
