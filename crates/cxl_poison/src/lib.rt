//! Poison lists: what a device's list says, and the host bytes that each of its records touches.
#![tactic(auto)]

mod apart;
mod cutting;
mod fault;
mod laws;
mod list;
mod live;
mod touching;

pub use cxl_model::{Entry, Found, Memory, Part, PoisonList, Poisoned, Run, Wide};
pub use fault::{PoisonFault, Said};
pub use laws::{
    bytes_are_one_list, cuts_lie_in_touched_stretches, each_record_has_pieces,
    records_are_told_in_one_way, runs_carry_the_touched_bytes,
};
pub use list::read_list;
pub use touching::{pieces, pieces_at};
