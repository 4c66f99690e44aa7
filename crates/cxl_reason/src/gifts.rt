//! Numbers by number of endpoints.

ghost use Rattle.std.specs.Prelude.{◌≡◌, ℕ, ◌+◌, ◌<◌, ◌≤◌, true};
ghost use Rattle.cxl_enc.specs.Codes.{is_ways};
ghost use Rattle.cxl_reason.specs.inner.Gifts.{AreCounts};

/// A number for each number of endpoints that a region can have.
#[derive(Clone, Copy)]
pub struct Counts {
    pub one: u16,
    pub two: u16,
    pub three: u16,
    pub four: u16,
    pub six: u16,
    pub eight: u16,
    pub twelve: u16,
    pub sixteen: u16,
}

/// The number for so many endpoints.
pub(crate) fn told(counts: &Counts, m: u8) -> u16
    requires { is_ways m ≡ true }
    ensures { (f : ℕ → ℕ) → AreCounts counts.now f → result ≡ f m }
{
    match m {
        1 => counts.one,
        2 => counts.two,
        3 => counts.three,
        4 => counts.four,
        6 => counts.six,
        8 => counts.eight,
        12 => counts.twelve,
        16 => counts.sixteen,
        _ => 0,
    }
}

/// Nothing for any.
pub(crate) fn no_counts() -> Counts
    ensures { AreCounts result (λ m. 0) }
{
    Counts {
        one: 0,
        two: 0,
        three: 0,
        four: 0,
        six: 0,
        eight: 0,
        twelve: 0,
        sixteen: 0,
    }
}

/// The sums of the numbers.
pub(crate) fn plus(a: &Counts, b: &Counts) -> Counts
    requires many { (f : ℕ → ℕ) × AreCounts a.now f × ((m : ℕ) → f m ≤ 256) }
    requires small { (f : ℕ → ℕ) × AreCounts b.now f × ((m : ℕ) → f m ≤ 1) }
    ensures { (f g : ℕ → ℕ) → AreCounts a.now f → AreCounts b.now g → AreCounts result (λ m. f m + g m) }
{
    Counts {
        one: a.one + b.one,
        two: a.two + b.two,
        three: a.three + b.three,
        four: a.four + b.four,
        six: a.six + b.six,
        eight: a.eight + b.eight,
        twelve: a.twelve + b.twelve,
        sixteen: a.sixteen + b.sixteen,
    }
}
