//! Tests of the calls that work on devices, a module for each crate: registers, images and buses, spans, frames and media. The jobs
//! that write registers are tested as sessions in `cxl_rows`.
//!
//! A large value is let go by a call of `drop`, which is proved once: what a function lets go by itself is part by part in its own
//! proof.
#![tactic(auto)]

#[cfg(test)]
mod bus;
#[cfg(test)]
mod common;
#[cfg(test)]
mod image;
#[cfg(test)]
mod media;
#[cfg(test)]
mod pool;
#[cfg(test)]
mod regs;
#[cfg(test)]
mod span;
