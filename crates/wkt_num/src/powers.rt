//! Powers of ten and of five in 64 bits.
ghost use Rattle.std.specs.Prelude.{◌≡◌, ◌^◌, ◌≤◌};

/// The most places that a fraction is printed and read at by 64 bits: ten times a rest still fits.
pub const SHORT_PLACES: u32 = 18;

static TENS: [u64; 19] = [
    1,
    10,
    100,
    1000,
    10000,
    100000,
    1000000,
    10000000,
    100000000,
    1000000000,
    10000000000,
    100000000000,
    1000000000000,
    10000000000000,
    100000000000000,
    1000000000000000,
    10000000000000000,
    100000000000000000,
    1000000000000000000,
];

static FIVES: [u64; 19] = [
    1,
    5,
    25,
    125,
    625,
    3125,
    15625,
    78125,
    390625,
    1953125,
    9765625,
    48828125,
    244140625,
    1220703125,
    6103515625,
    30517578125,
    152587890625,
    762939453125,
    3814697265625,
];

/// Ten to the `places`.
#[inline(always)]
#[tactic(auto, using(crate::proofs::WindowDigits::tens))]
pub fn ten_to(places: u32) -> u64
    requires { places ≤ 18 }
    ensures { result ≡ 10 ^ places }
{
    TENS[places as usize]
}

/// Five to the `places`.
#[inline(always)]
#[tactic(auto, using(crate::proofs::WindowDigits::fives))]
pub fn five_to(places: u32) -> u64
    requires { places ≤ 18 }
    ensures { result ≡ 5 ^ places }
{
    FIVES[places as usize]
}
