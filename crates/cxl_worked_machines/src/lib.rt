//! Worked machines, and laws that compute what the definitions of sessions say of them.
#![tactic(auto)]

mod access_examples;
mod examples;
mod flat_examples;
mod opening_examples;
mod plan_examples;

pub use access_examples::{addresses_on_examples, bytes_on_examples, copies_on_examples};
pub use examples::{
    creates_on_examples, refused_creates_on_examples, release_steps_on_examples,
    releases_on_examples, steps_on_examples,
};
pub use flat_examples::{
    carrying_on_examples, flat_bytes_on_examples, flat_copies_on_examples, flat_loads_on_examples,
    flat_stores_on_examples, kept_bytes_on_examples, places_on_examples, unmapped_on_examples,
    writers_on_examples,
};
pub use opening_examples::{machines_with_bytes_on_examples, openings_on_examples};
pub use plan_examples::{
    faults_on_examples, plan_faults_on_examples, poison_on_examples, scripts_on_examples,
    trails_on_examples,
};
