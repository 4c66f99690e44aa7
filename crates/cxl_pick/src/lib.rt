//! Endpoints picked for a region of which only the number of ways is stated.
#![tactic(auto)]

mod asking;
mod children;
mod fault;
mod gathering;
mod gifts;
mod laws;
mod nodes;
mod picking;
mod terms;
mod want;

pub use fault::PickFault;
pub use laws::{
    answers_hold_of_wants, fitting_sets_are_given, fitting_sets_have_plans, given_sets_fit,
    picked_sets_have_plans, wants_come_to_answers,
};
pub use picking::pick;
pub use want::Want;
