//! Tests of worked hosts that no command shows, written as a few numbers each: where addresses lead by kept routes and by registers,
//! why one leads nowhere, images of other nodes than the host's, all places that break a rule, why each does,
//! and why no set of endpoints has a legal plan.
#![tactic(auto)]

#[cfg(test)]
mod breaches;
#[cfg(test)]
mod causes;
#[cfg(test)]
mod host_texts;
#[cfg(test)]
mod hosts;
#[cfg(test)]
mod reasons;
#[cfg(test)]
mod rows;
#[cfg(test)]
mod traces;
#[cfg(test)]
mod walks;
