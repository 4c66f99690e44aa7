//! The bus that reads and writes the register words of a system's decoder blocks, one word at a time.
#![tactic(auto)]

mod failing;
mod regs;
mod sent;
mod sim;

pub use failing::FailingBus;
pub use regs::Regs;
pub use sent::Sent;
pub use sim::SimBus;
