//! What is kept of a session.

use crate::trail_bus::TrailBus;
use cxl_media::SimMedia;
use cxl_session::Session;

/// A session over the simulator's registers, which tell the words that its last call sent, and its device memory. A call asks
/// that all three stand for one machine, as they do from the opening on.
#[derive(Drop)]
pub struct Held {
    pub(crate) session: Session,
    pub(crate) regs: TrailBus,
    pub(crate) media: SimMedia,
}
