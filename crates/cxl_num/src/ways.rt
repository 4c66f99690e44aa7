//! Ways by their factors, three and a power of two.

ghost use Rattle.std.specs.Prelude.{◌≡◌, ◌≤◌};
ghost use Rattle.cxl_num.specs.Interleave.{factor_of, ways_by};

use cxl_enc::Factors;

/// The t of ways `t * 2^k`: 3 where `third`, and else 1.
pub fn factor_of(third: bool) -> u64
    ensures { result ≡ factor_of third }
{
    if third { 3 } else { 1 }
}

/// The number of ways `t * 2^k` that have these factors.
pub fn ways_by(factors: Factors) -> u64
    requires { factors.bits ≤ 4 }
    ensures { result ≡ ways_by factors.third factors.bits }
{
    factor_of(factors.third) << factors.bits
}
