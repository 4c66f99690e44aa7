//! Tests of the calls that read what a user or the firmware states, and of the arithmetic on it, a module for each crate: codes,
//! numbers, files and lines, the table, its windows, trees, and how bytes are dealt. Worked values, outside vectors and printed
//! texts, which no contract says. They stand apart from the crates, so that a crate is proved once and not a second time with its
//! tests, and in crates of their own by subject, which are proved side by side.
#![tactic(auto)]

#[cfg(test)]
mod cedt;
#[cfg(test)]
mod common;
#[cfg(test)]
mod deal;
#[cfg(test)]
mod enc;
#[cfg(test)]
mod io;
#[cfg(test)]
mod num;
#[cfg(test)]
mod topo;
#[cfg(test)]
mod window;
