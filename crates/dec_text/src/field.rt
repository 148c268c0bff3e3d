//! Reads a field of a telemetry row.
ghost use Rattle.std.specs.Prelude.{◌≡◌, ◌≢◌, ◌+◌, ◌*◌, ◌-◌, ◌^◌, ◌≤◌, ◌<◌, ◌||◌, min, true, [], ◌++◌, length, take};
ghost use Rattle.std.specs.Prelude.{drop, IfOk, IfErr, IfSome};
ghost use Rattle.std.specs.Char.{is_ascii_digit};
ghost use Rattle.std.specs.List.{list_all, list_any, position};
ghost use Rattle.std.specs.Option.{option_copied, option_map_or};
ghost use Rattle.dec_text.specs.Decimal.{number, number_after, is_not_zero};
ghost use Rattle.dec_text.specs.Reading.{reading_of, without_gaps, is_gap, IsInRange, IsNearTo, value_of};
ghost use Rattle.dec_text.specs.Reading.{number_said_by, is_missing, is_e, without_front_gaps, without_back_gaps};
ghost use Rattle.dec_text.specs.Reading.{mantissa_of, exponent_of, scaled_reading, lost_places, kept_places};
ghost use Rattle.dec_text.specs.Reading.{kept_tenths, lost_digits, rounded_tenths};

use crate::reading::{DecFault, has_more, have_digits, split_point, split_sign};
use fixed_mat::Reading;

/// The greatest reading, in billionths.
const MOST_BILLIONTHS: u64 = 1_000_000_000_000_000_000;

/// So many tenths of a billionth, and more, are too large whatever follows.
const MOST_TENTHS: u64 = 10 * (MOST_BILLIONTHS + 1);

/// How many digits behind the point are tenths of a billionth and greater.
const PLACES: usize = 10;

/// Reads a field of a telemetry row: nothing, or a decimal with or without a power of ten, in nano-units.
///
/// Spaces and tabs at its ends don't count. An empty text, `NaN`, `nan` and `NA` are a lost reading. A number finer than a nano-unit is
/// rounded to the nearest, halves upwards, and has a slack of 1. The fault is `Shape` or `TooLarge`; the work grows with the
/// text's length, and not with the exponent.
pub fn read_reading(field: &[u8]) -> Result<Reading, DecFault>
    ensures exact { result ≡ reading_of field.now }
    ensures range { IfOk result IsInRange }
    ensures near { IfOk result (IsNearTo (value_of (without_gaps field.now))) }
    ensures faults { IfErr result (λ e. e ≢ DecFault.TooFine) }
{
    let text = without_gaps(field);
    if is_missing(text) {
        return Ok(Reading::Missing);
    }
    number_said(text)
}

/// The number that a text without gaps at its ends writes.
fn number_said(text: &[u8]) -> Result<Reading, DecFault>
    ensures { result ≡ number_said_by text.now }
{
    let (mantissa, exponent) = split_exponent(text);
    let Some(exponent) = exponent else {
        return scaled(mantissa, false, 0);
    };
    let (divided, digits) = split_sign(exponent);
    if !have_digits(digits, &[]) {
        return Err(DecFault::Shape);
    }
    let size = capped_number(digits, mantissa.len() + 10);
    scaled(mantissa, divided, size)
}

/// The text without spaces and tabs at its ends.
pub fn without_gaps(field: &[u8]) -> &[u8]
    ensures { result.now ≡ without_gaps field.now }
{
    without_back_gaps(without_front_gaps(field))
}

fn without_front_gaps(field: &[u8]) -> &[u8]
    ensures { result.now ≡ without_front_gaps field.now }
{
    let mut text = field;
    while let [first, rest @ ..] = text {
        if !is_gap(*first) {
            break;
        }
        text = rest;
    }
    text
}

fn without_back_gaps(field: &[u8]) -> &[u8]
    ensures { result.now ≡ without_back_gaps field.now }
{
    let mut text = field;
    while let [rest @ .., last] = text {
        if !is_gap(*last) {
            break;
        }
        text = rest;
    }
    text
}

fn is_gap(c: u8) -> bool
    ensures { result ≡ is_gap c }
{
    c == b' ' || c == b'\t'
}

fn is_missing(text: &[u8]) -> bool
    ensures { result ≡ is_missing text.now }
{
    matches!(text, b"" | b"NaN" | b"nan" | b"NA")
}

/// What stands before the first `e`, and behind it.
fn split_exponent(text: &[u8]) -> (&[u8], Option<&[u8]>)
    ensures mantissa { result.0.now ≡ mantissa_of text.now }
    ensures exponent { option_copied result.1 ≡ exponent_of text.now }
{
    match e_of(text) {
        Some(at) => (&text[..at], Some(&text[at + 1..])),
        None => (text, None),
    }
}

fn e_of(text: &[u8]) -> Option<usize>
    ensures place { result ≡ position is_e text.now }
    ensures within { IfSome result (λ at. at < length text.now) }
{
    text.iter().position(|c| *c == b'e' || *c == b'E')
}

/// The number that an exponent's digits write, or the bound if they write more.
fn capped_number(digits: &[u8], bound: usize) -> usize
    requires digits { list_all is_ascii_digit digits.now ≡ true }
    requires room { bound < 2 ^ 63 + 16 }
    ensures { result ≡ min (number digits.now) bound }
{
    let mut number: usize = 0;
    for c in digits {
        let more = number
            .saturating_mul(10)
            .saturating_add(usize::from(*c - b'0'));
        number = more.min(bound);
    }
    number
}

/// The reading of a mantissa times `10 ^ size`, or divided by it.
fn scaled(mantissa: &[u8], divided: bool, size: usize) -> Result<Reading, DecFault>
    requires { size ≤ length mantissa.now + 10 }
    ensures { result ≡ scaled_reading mantissa.now divided size }
{
    let (negative, body) = split_sign(mantissa);
    let (whole, fraction) = split_point(body);
    if !have_digits(whole, fraction) {
        return Err(DecFault::Shape);
    }
    let (lost, behind) = places_of(divided, size);
    let (tenths, is_fine) = tenths_of(whole, fraction, lost, behind);
    rounded(negative, tenths, is_fine)
}

/// How many digits before the point are less than a tenth of a billionth, and how many places behind it are not.
fn places_of(divided: bool, size: usize) -> (usize, usize)
    requires { size + 10 < 2 ^ 64 }
    ensures lost { result.0 ≡ lost_places divided size }
    ensures behind { result.1 ≡ kept_places divided size }
{
    if divided {
        (size.saturating_sub(PLACES), PLACES.saturating_sub(size))
    } else {
        (0, PLACES + size)
    }
}

/// The tenths of a billionth that the digits write when the last `lost` before the point and those past `behind` behind it are left
/// out, and whether one of these isn't 0.
fn tenths_of(whole: &[u8], fraction: &[u8], lost: usize, behind: usize) -> (u64, bool)
    requires whole { list_all is_ascii_digit whole.now ≡ true }
    requires fraction { list_all is_ascii_digit fraction.now ≡ true }
    ensures tenths { result.0 ≡ min (kept_tenths whole.now fraction.now lost behind) MOST_TENTHS }
    ensures fine { result.1 ≡ list_any is_not_zero (lost_digits whole.now fraction.now lost behind) }
{
    let (head, small) = whole.split_at(whole.len() - lost.min(whole.len()));
    let (places, smaller) = fraction.split_at(behind.min(fraction.len()));
    let tenths = push_digits(push_digits(0, head), places);
    let tenths = push_zeros(tenths, behind.saturating_sub(fraction.len()));
    (tenths, has_more(small) || has_more(smaller))
}

/// The tenths with more digits behind them.
fn push_digits(tenths: u64, digits: &[u8]) -> u64
    requires digits { list_all is_ascii_digit digits.now ≡ true }
    requires bound { tenths ≤ MOST_TENTHS }
    ensures value { result ≡ min (number_after tenths digits.now) MOST_TENTHS }
    ensures capped { result ≤ MOST_TENTHS }
{
    let mut total = tenths;
    for c in digits {
        total = push_digit(total, *c - b'0');
    }
    total
}

/// The tenths with zeros behind them.
fn push_zeros(tenths: u64, count: usize) -> u64
    requires { tenths ≤ MOST_TENTHS }
    ensures value { result ≡ min (tenths * 10 ^ count) MOST_TENTHS }
    ensures capped { result ≤ MOST_TENTHS }
{
    let mut total = tenths;
    for i in 0..count {
        total = push_digit(total, 0);
    }
    total
}

fn push_digit(tenths: u64, digit: u8) -> u64
    ensures { result ≡ min (10 * tenths + digit) MOST_TENTHS }
{
    (u128::from(tenths) * 10 + u128::from(digit)).min(u128::from(MOST_TENTHS)) as u64
}

/// The billionths nearest to so many tenths of one and, where it is fine, a part of a tenth more; halves are rounded upwards.
fn rounded(negative: bool, tenths: u64, is_fine: bool) -> Result<Reading, DecFault>
    requires { tenths ≤ MOST_TENTHS }
    ensures { result ≡ rounded_tenths negative tenths is_fine }
{
    let half = if negative && !is_fine { 4 } else { 5 };
    let magnitude = (tenths + half) / 10;
    if magnitude > MOST_BILLIONTHS {
        return Err(DecFault::TooLarge);
    }
    let v = i128::from(magnitude);
    let slack = if is_fine || tenths % 10 != 0 { 1 } else { 0 };
    Ok(Reading::Value {
        v: if negative { -v } else { v },
        slack,
    })
}
