//! Numbers for interleaving: parities and XOR maps, raw bits, the factors of ways, low bits, a number from
//! its remainders, and the end of a range.
#![tactic(auto)]

mod bits;
mod ends;
mod laws;
mod maps;
mod remainders;
mod ways;

pub use bits::{low_bits, parity};
pub use ends::checked_end;
pub use laws::{parities_tell_raw_bits, raw_bits_are_replaced, remainders_keep_digits};
pub use maps::{are_usable_maps, parities, with_raw_bits};
pub use remainders::join_thirds;
pub use ways::{factor_of, ways_by};
