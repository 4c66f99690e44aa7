//! The codes of ways and of granularities, as registers and tables hold them.

ghost use Rattle.std.specs.Prelude.{◌≡◌, ℕ, ◌*◌, ◌^◌, ◌<◌, ◌≤◌, Some, is_some, IsTrue, IfSome, if◌then◌else◌};
ghost use Rattle.cxl_enc.specs.Codes.{ways_of, chunk_size, granularity_of, code_in_table, gran_code_in_table, is_ways, third_of, bits_of, log2_of};

/// The ways of a ways code: 1, 2, 4, 8 and 16 for the codes 0 to 4, and 3, 6 and 12 for the codes 8 to
/// 10. `None` for every other code. (CXL HDM decoder control, interleave ways.)
pub fn ways_of(code: u8) -> Option<u8>
    ensures exact { result ≡ ways_of code }
    ensures known { IfSome result (λ ways. IsTrue (is_ways ways)) }
{
    match code {
        0 => Some(1),
        1 => Some(2),
        2 => Some(4),
        3 => Some(8),
        4 => Some(16),
        8 => Some(3),
        9 => Some(6),
        10 => Some(12),
        _ => None,
    }
}

/// The code of a number of ways, `None` where no code stands for it.
pub fn code_of(ways: u8) -> Option<u8>
    ensures code { IfSome result (λ code. ways_of code ≡ Some ways) }
    ensures only { (code : ℕ) → ways_of code ≡ Some ways → result ≡ Some code }
    ensures known { is_some result ≡ is_ways ways }
{
    code_in_table(ways)
}

fn code_in_table(ways: u8) -> Option<u8>
    ensures { result ≡ code_in_table ways }
{
    match ways {
        1 => Some(0),
        2 => Some(1),
        4 => Some(2),
        8 => Some(3),
        16 => Some(4),
        3 => Some(8),
        6 => Some(9),
        12 => Some(10),
        _ => None,
    }
}

/// The bytes of a granularity code: 256 for 0, and twice as many for each code more, up to 16,384 for 6.
/// `None` above. (CXL HDM decoder control, interleave granularity.)
pub fn gran_of(code: u8) -> Option<u32>
    ensures { result ≡ granularity_of code }
{
    match code {
        0 => Some(256),
        1 => Some(512),
        2 => Some(1_024),
        3 => Some(2_048),
        4 => Some(4_096),
        5 => Some(8_192),
        6 => Some(16_384),
        _ => None,
    }
}

/// The bytes of a chunk at a granularity code, also at one that no granularity has: 256, and twice as many for
/// each code more. (CXL HDM decoder control, interleave granularity.)
pub fn chunk_size(gran: u8) -> u32
    requires { gran < 16 }
    ensures { result ≡ chunk_size gran }
{
    256 << gran
}

/// The code of a granularity in bytes, `None` where no code stands for it.
pub fn gran_code(bytes: u64) -> Option<u8>
    ensures code { IfSome result (λ code. granularity_of code ≡ Some bytes) }
    ensures only { (code : ℕ) → granularity_of code ≡ Some bytes → result ≡ Some code }
{
    gran_code_in_table(bytes)
}

fn gran_code_in_table(bytes: u64) -> Option<u8>
    ensures { result ≡ gran_code_in_table bytes }
{
    match bytes {
        256 => Some(0),
        512 => Some(1),
        1_024 => Some(2),
        2_048 => Some(3),
        4_096 => Some(4),
        8_192 => Some(5),
        16_384 => Some(6),
        _ => None,
    }
}

/// Ways `t * 2^k`: `third` where t is 3 and not 1, and `bits` is k.
#[derive(Clone, Copy, PartialEq, Eq)]
pub struct Factors {
    pub third: bool,
    pub bits: u8,
}

/// The two factors of a number of ways, `t * 2^k`: t is 3 where 3 divides them, and else 1.
pub fn split(ways: u8) -> Factors
    requires { IsTrue (is_ways ways) }
    ensures third { third_of ways ≡ (if result.third then 3 else 1) }
    ensures bits { result.bits ≡ bits_of ways }
    ensures product { ways ≡ third_of ways * 2 ^ bits_of ways }
    ensures few { bits_of ways ≤ 4 }
{
    if ways % 3 == 0 {
        return Factors {
            third: true,
            bits: log2(ways / 3),
        };
    }
    Factors {
        third: false,
        bits: log2(ways),
    }
}

/// The exponent of a power of two up to 16.
fn log2(power: u8) -> u8
    ensures { result ≡ log2_of power }
{
    match power {
        16 => 4,
        8 => 3,
        4 => 2,
        2 => 1,
        _ => 0,
    }
}
