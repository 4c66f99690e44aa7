//! Worked hosts, images, regions and plans, and laws that compute what the definitions say of them. Only other worked
//! examples rest on this crate.
#![tactic(auto)]

mod content_examples;
mod examples;
mod layout_examples;
mod plan_examples;
mod range_examples;
mod region_examples;

pub use content_examples::contents_on_examples;
pub use examples::{
    carried_on_examples, chains_on_examples, examples_are_systems, regions_on_examples,
    rules_on_examples,
};
pub use layout_examples::{
    carried_on_layouts, chains_on_layouts, layouts_are_systems, regions_on_layouts,
    rules_on_layouts,
};
pub use plan_examples::{legal_plan_on_examples, stated_rows_on_examples};
pub use range_examples::{extents_on_examples, spreads_on_examples};
pub use region_examples::{changes_on_examples, endpoints_on_examples, spans_on_examples};
