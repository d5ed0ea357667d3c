ghost use Rattle.std.specs.Prelude.{◌≡◌, ℤ, pos, true, ◌≤ℤ◌};
ghost use Rattle.boss_numbers.specs.Scales.{fits, has_form, have_forms, if_held, numerator, whole};

use boss_model::{Form, Round, Scale};

/// What is divided by `per`: none exactly where 64 bits do not hold it.
pub fn numerator(scale: Scale, value: i64) -> Option<i64>
    ensures { result ≡ if_held (numerator scale value) }
{
    if_held(wide_numerator(scale, value))
}

/// What is divided by `per`, which 128 bits always hold.
fn wide_numerator(scale: Scale, value: i64) -> i128
    ensures { result ≡ numerator scale value }
{
    let scaled = i128::from(value) * i128::from(scale.times);
    let shift = i128::from(scale.offset) * i128::from(scale.per);
    scaled + shift
}

/// A number that 64 bits hold.
fn if_held(n: i128) -> Option<i64>
    ensures { result ≡ if_held n }
{
    if -9_223_372_036_854_775_808 <= n && n <= 9_223_372_036_854_775_807 {
        Some(n as i64)
    } else {
        None
    }
}

/// The whole number that a fraction comes to.
pub(crate) fn whole(round: Round, n: i64, per: i64) -> i128
    requires { pos 1 ≤ℤ per }
    ensures { result ≡ whole round n per }
{
    let n = i128::from(n);
    let per = i128::from(per);
    match round {
        Round::Down => n.div_euclid(per),
        Round::Nearest => (n * 2 + per).div_euclid(per * 2),
    }
}

/// Whether a form has this whole number. A binary32 is near to each.
pub(crate) fn fits(form: Form, raw: i128) -> bool
    ensures { result ≡ fits form raw }
{
    match form {
        Form::Unsigned16 => 0 <= raw && raw <= 65_535,
        Form::Signed16 => -32_768 <= raw && raw <= 32_767,
        Form::Unsigned32 { .. } => 0 <= raw && raw <= 4_294_967_295,
        Form::Signed32 { .. } => -2_147_483_648 <= raw && raw <= 2_147_483_647,
        Form::Single { .. } => true,
    }
}

/// Whether a value has a form at this scale.
pub fn has_form(form: Form, scale: Scale, value: i64) -> bool
    ensures { result ≡ has_form form scale value }
{
    if scale.per < 1 {
        return false;
    }
    match numerator(scale, value) {
        Some(n) => fits(form, whole(scale.round, n, scale.per)),
        None => false,
    }
}

/// Whether the least and the greatest of some values have a form. If so, each value between them has one.
pub fn have_forms(form: Form, scale: Scale, least: i64, most: i64) -> bool
    ensures ends { result ≡ have_forms form scale least most }
    ensures between { result ≡ true → (value : ℤ) → least ≤ℤ value → value ≤ℤ most → has_form form scale value ≡ true }
{
    has_form(form, scale, least) && has_form(form, scale, most)
}
