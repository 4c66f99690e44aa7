//! Plans of new regions: the first window that takes a request, the least base there and the rows of registers,
//! or why no legal plan exists.
#![tactic(auto)]

mod base;
mod choosing;
mod judge;
mod laws;
mod planning;
mod room;
mod rows;
mod spans;
mod stages;
mod used;
mod ways;
mod windows;

pub use cxl_model::{FixedList, Found, Place, Plan, PlanFault, Reason, Request, Row};
pub use laws::{
    answers_hold_of_requests, endpoints_stand_in_any_order, plans_go_by_any_name,
    requests_come_to_answers,
};
pub use planning::plan;
