//! Worked runs: laws that compute what the definitions of how a run starts and ends say of some, and beside each what they
//! do not.
#![tactic(auto)]

mod ends;
mod starts;

pub use ends::{cuts_on_examples, script_ends_on_examples};
pub use starts::{hosts_on_examples, unopened_on_examples};
