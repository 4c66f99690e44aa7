//! What is asked of a plan.

use cxl_enc::{FixedList, MemKind, Name};

/// What is asked of a plan: a new region over these endpoints.
#[derive(Drop)]
pub struct Request {
    pub name: Name,
    pub kind: MemKind,
    /// In bytes.
    pub size: u64,
    /// The granularity code, where one is stated.
    pub gran: Option<u8>,
    /// The node numbers of the endpoints, one for each way, in any order.
    pub endpoints: FixedList<u32>,
}
