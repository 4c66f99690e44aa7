//! The program's replies to commands: what each of them holds. What the text of each is stands in `specs`.
#![tactic(auto)]

mod details;
mod laws;
mod reply;

pub use cxl_enc::{FixedList, MemKind, Memory, Name};
pub use cxl_model::{Extent, Found, PlanFault, PoisonList, Poisoned};
pub use cxl_script::{BadLine, Why};
pub use details::{
    Begun, Carried, Counted, Downed, Extents, Lack, Named, Pending, Progress, Report, Shown,
    ShownRow, Sizes, Spot, Spread, Upped, Via,
};
pub use laws::findings_are_told;
pub use reply::Reply;
