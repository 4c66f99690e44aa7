//! The library for C: each call of it over bytes of the caller, who owes what is said of pointers in its header.
#![tactic(auto)]

mod asked;
mod forms;
mod held;
mod reads;
mod sessions;
mod windows;
