//! A session by handle: an address that a program in another language keeps between its calls, and that carries what is proved of the
//! session behind it. A call takes the session from the handle, works on it, and puts it back.
#![tactic(auto)]

mod acting;
mod asking;
mod facts;
mod handle;
mod images;
mod opening;
mod raw_box;
mod words;

pub use facts::{HostByteFact, NameFact, PlaceFact, RefusalFact, ViaFact};
pub use handle::SessionHandle;
pub use words::WordFact;
