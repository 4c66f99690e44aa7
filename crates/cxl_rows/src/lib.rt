//! Rows of the whole program that no command shows, as tests of `run` over objects in memory: registers, sinks, files and scripts
//! that fail, and how often each is called. And scripts command by command, as calls of `Session::act`; a session that a program
//! keeps; and the messages of errors.
#![tactic(auto)]

#[cfg(test)]
mod acts;
#[cfg(test)]
mod counts;
#[cfg(test)]
mod held;
#[cfg(test)]
mod host_files;
#[cfg(test)]
mod messages;
#[cfg(test)]
mod outside;
#[cfg(test)]
mod rows;
#[cfg(test)]
mod script_ends;
#[cfg(test)]
mod scripts;
#[cfg(test)]
mod tables;
#[cfg(test)]
mod undone;
