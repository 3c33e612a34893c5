//! Arithmetic on whole numbers of 128 bits with sign: the exact result, or none where it is out of
//! range. Products and quotients of numbers that fit 64 bits are made of such, which is faster.
#![tactic(auto, using(crate::proofs::Range::if_in_range_from_checked))]

ghost use Rattle.std.specs.Prelude.{◌≡◌, ◌≤◌};
ghost use Rattle.std.specs.Int.{int_pow};
ghost use Rattle.tm_primitives.specs.Whole.{sum_of, difference_of, product_of, negation_of, quotient_of, remainder_of, power_of};
ghost use Rattle.tm_primitives.specs.Whole.{if_in_range, IsEuclidean};

/// `a + b`; none where the sum is out of range.
#[inline(always)]
pub fn add(a: i128, b: i128) -> Option<i128>
    ensures { result ≡ sum_of a b }
{
    a.checked_add(b)
}

/// `a - b`; none where the difference is out of range.
#[inline(always)]
pub fn subtract(a: i128, b: i128) -> Option<i128>
    ensures { result ≡ difference_of a b }
{
    a.checked_sub(b)
}

/// `a * b`; none where the product is out of range.
#[inline(always)]
pub fn multiply(a: i128, b: i128) -> Option<i128>
    ensures { result ≡ product_of a b }
{
    match (i64::try_from(a), i64::try_from(b)) {
        (Ok(a), Ok(b)) => Some(a as i128 * b as i128),
        _ => wide_product(a, b),
    }
}

#[inline(never)]
fn wide_product(a: i128, b: i128) -> Option<i128>
    ensures { result ≡ product_of a b }
{
    a.checked_mul(b)
}

/// `-a`; none for the least number.
pub fn negate(a: i128) -> Option<i128>
    ensures { result ≡ negation_of a }
{
    a.checked_neg()
}

/// `a // b`, rounded so that the remainder is not negative; none by zero, and for the least number
/// by -1.
#[inline(always)]
pub fn divide(a: i128, b: i128) -> Option<i128>
    ensures { result ≡ quotient_of a b }
{
    match (i64::try_from(a), i64::try_from(b)) {
        (Ok(a), Ok(b)) if b > 0 => Some(a.div_euclid(b) as i128),
        _ => wide_quotient(a, b),
    }
}

#[inline(never)]
fn wide_quotient(a: i128, b: i128) -> Option<i128>
    ensures { result ≡ quotient_of a b }
{
    if b == 0 {
        return None;
    }
    if b == -1 {
        return negate(a);
    }
    Some(a.div_euclid(b))
}

/// `a % b`, which is not negative; none by zero.
#[inline(always)]
pub fn remainder(a: i128, b: i128) -> Option<i128>
    ensures { result ≡ remainder_of a b }
{
    match (i64::try_from(a), i64::try_from(b)) {
        (Ok(a), Ok(b)) if b > 0 => Some(a.rem_euclid(b) as i128),
        _ => wide_remainder(a, b),
    }
}

#[inline(never)]
fn wide_remainder(a: i128, b: i128) -> Option<i128>
    ensures { result ≡ remainder_of a b }
{
    if b == 0 {
        return None;
    }
    if b == -1 {
        return Some(0);
    }
    Some(a.rem_euclid(b))
}

/// `a ** exponent`; none for a negative exponent, and where the power is out of range.
pub fn power(a: i128, exponent: i128) -> Option<i128>
    ensures { result ≡ power_of a exponent }
{
    if exponent < 0 {
        return None;
    }
    match u32::try_from(exponent) {
        Ok(exponent) => a.checked_pow(exponent),
        Err(_) => far_power(a, exponent as u128),
    }
}

// Past 127 only the powers of 0, 1 and -1 are in range.
#[tactic(auto, using(crate::proofs::Range::power_too_far))]
fn far_power(a: i128, exponent: u128) -> Option<i128>
    requires { 128 ≤ exponent }
    ensures { result ≡ if_in_range (int_pow a exponent) }
{
    if a == 0 || a == 1 {
        return Some(a);
    }
    if a == -1 {
        return Some(if exponent % 2 == 0 { 1 } else { -1 });
    }
    None
}

/// The law of quotients and remainders.
pub fn division_law(a: i128, b: i128)
    ensures { IsEuclidean a b }
{}
