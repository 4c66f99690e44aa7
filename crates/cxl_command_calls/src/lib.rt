//! Tests of the calls by which commands are read and answered, a module for each crate: lines of scripts and generated ones, poison
//! lists, and the texts of replies.
#![tactic(auto)]

#[cfg(test)]
mod common;
#[cfg(test)]
mod generated;
#[cfg(test)]
mod poison;
#[cfg(test)]
mod reads;
#[cfg(test)]
mod reply;
#[cfg(test)]
mod script;
