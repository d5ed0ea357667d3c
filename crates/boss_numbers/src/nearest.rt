ghost use Rattle.std.specs.Prelude.{◌≡◌, ◌<◌, ◌≤◌, ◌+◌, ◌*◌, ◌^◌};
ghost use Rattle.boss_numbers.specs.Nearest.{IsNearest, rounded};

/// A fraction `n / d` times `2^(e - 149)`.
#[derive(Clone, Copy, Debug, PartialEq, Eq)]
struct Scaled {
    n: u128,
    d: u128,
    e: u32,
}

/// The bits of the binary32 that is nearest to `n / d`.
pub fn nearest(n: u64, d: u64) -> u32
    requires { 0 < d }
    ensures nearest { IsNearest (n * 2 ^ 149) d result }
    ensures finite { result < 2139095040 }
{
    if n == 0 {
        return 0;
    }
    let scaled = lower(d, raise(n, d));
    let quotient = scaled.n / scaled.d;
    let rest = scaled.n % scaled.d;
    round(scaled.e, quotient as u32, rest, scaled.d)
}

/// The numerator doubled until it has 101 bits.
fn raise(n: u64, d: u64) -> Scaled
    requires some { 0 < n }
    requires parts { 0 < d }
    ensures same { result.n * 2 ^ result.e ≡ n * 2 ^ 149 }
    ensures long { 2 ^ 100 ≤ result.n }
    ensures short { result.n < 2 ^ 101 }
    ensures parts { result.d ≡ d }
    ensures few { result.e ≤ 149 }
{
    let first = u128::from(n);
    let mut n = first;
    let mut e = 149;
    while n < 1 << 100 {
        n *= 2;
        e -= 1;
    }
    let d = u128::from(d);
    Scaled { n, d, e }
}

/// The denominator doubled until the quotient has 24 bits.
fn lower(parts: u64, scaled: Scaled) -> Scaled
    requires some { 0 < parts }
    requires same { scaled.d ≡ parts }
    requires long { 2 ^ 100 ≤ scaled.n }
    requires short { scaled.n < 2 ^ 101 }
    requires few { scaled.e ≤ 149 }
    ensures same { result.n ≡ scaled.n }
    ensures parts { 0 < result.d }
    ensures scale { result.d * 2 ^ scaled.e ≡ parts * 2 ^ result.e }
    ensures least { 8388608 * result.d ≤ result.n }
    ensures most { result.n < 16777216 * result.d }
    ensures few { result.e ≤ 249 }
{
    let Scaled { n, d, e } = scaled;
    let mut d = d;
    let mut e = e;
    while n >= d * 0x100_0000 {
        d *= 2;
        e += 1;
    }
    Scaled { n, d, e }
}

/// The bits of a significand, or of the next one where the rest asks for it.
fn round(e: u32, significand: u32, rest: u128, parts: u128) -> u32
    requires few { e ≤ 249 }
    requires most { significand < 16777216 }
    requires rest { rest < parts }
    requires short { parts < 2 ^ 101 }
    ensures { result ≡ rounded (e * 8388608 + significand) (2 * rest) parts }
{
    let bits = e * 0x80_0000 + significand;
    if rest * 2 > parts || (rest * 2 == parts && significand % 2 == 1) {
        bits + 1
    } else {
        bits
    }
}
