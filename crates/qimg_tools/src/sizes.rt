//! Sizes in words, and in the form for people.
ghost use Rattle.std.specs.Prelude.{◌≡◌, ◌<◌, ◌≤◌, ◌^◌, length};
ghost use Rattle.program_parts.specs.Numbers.{number_of_word};
ghost use Rattle.qimg_tools.specs.Sizes.{added, fractional_size, part_of_unit, size_of_word, unit_of_letter, units, whole_size};

use program_parts::number;
use std::fmt;

/// The bytes of a word: decimal digits, and at most one letter for a power of 1024. Before a letter the number may have a fraction of at
/// most 19 digits, which is rounded down to a byte. None if it is something else, or doesn't fit into 64 bits.
pub fn size(word: &str) -> Option<u64>
    ensures { result ≡ size_of_word word.now }
{
    match word.split_once('.') {
        Some((whole, rest)) => fractional_size(whole, rest),
        None => whole_size(word),
    }
}

fn whole_size(word: &str) -> Option<u64>
    ensures { result ≡ whole_size word.now }
{
    match word.as_bytes() {
        [digits @ .., letter] => match unit_of_letter(letter.to_ascii_lowercase()) {
            Some(unit) => units(number_of_digits(digits), unit),
            None => number(word),
        },
        [] => None,
    }
}

// The bytes of a number of units with a fraction: the word before the point, and the one behind it.
fn fractional_size(whole: &str, rest: &str) -> Option<u64>
    ensures { result ≡ fractional_size whole.now rest.now }
{
    match rest.as_bytes() {
        [digits @ .., letter] => match unit_of_letter(letter.to_ascii_lowercase()) {
            Some(unit) => added(units(number(whole), unit), part_of_unit(digits, unit)),
            None => None,
        },
        [] => None,
    }
}

fn unit_of_letter(letter: u8) -> Option<u64>
    ensures { result ≡ unit_of_letter letter }
{
    match letter {
        b'k' => Some(1 << 10),
        b'm' => Some(1 << 20),
        b'g' => Some(1 << 30),
        b't' => Some(1 << 40),
        b'p' => Some(1 << 50),
        b'e' => Some(1 << 60),
        _ => None,
    }
}

// A number of units in bytes, if it fits into 64 bits.
fn units(count: Option<u64>, unit: u64) -> Option<u64>
    ensures { result ≡ units count unit }
{
    count?.checked_mul(unit)
}

// The bytes of a fraction of a unit, rounded down, by the digits behind the point.
#[tactic(auto, using(crate::proofs::Tens::tens_are_some, crate::proofs::Tens::long_tens))]
fn part_of_unit(digits: &[u8], unit: u64) -> Option<u64>
    ensures { result ≡ part_of_unit (number_of_word digits.now) unit (10 ^ length digits.now) }
{
    let count = u128::from(number_of_digits(digits)?);
    let digit_count = u32::try_from(digits.len()).ok()?;
    let parts = u128::from(10u64.checked_pow(digit_count)?);
    u64::try_from(count * u128::from(unit) / parts).ok()
}

// A sum of two numbers of bytes, if it fits into 64 bits.
fn added(one: Option<u64>, other: Option<u64>) -> Option<u64>
    ensures { result ≡ added one other }
{
    one?.checked_add(other?)
}

fn number_of_digits(digits: &[u8]) -> Option<u64>
    ensures { result ≡ number_of_word digits.now }
{
    match std::str::from_utf8(digits) {
        Ok(word) => number(word),
        Err(_) => None,
    }
}

/// A new size, or its change.
#[derive(Clone, Copy)]
pub enum SizeChange {
    /// A number of bytes.
    To(u64),
    /// This many bytes more than now.
    More(u64),
    /// This many bytes fewer than now.
    Fewer(u64),
}

/// The meaning of a word for a size: a size, or behind `+` or `-` a change. None if it is something else,
/// or doesn't fit into 64 bits.
pub fn size_change(word: &str) -> Option<SizeChange> {
    if let Some(more) = word.strip_prefix('+') {
        return Some(SizeChange::More(size(more)?));
    }
    if let Some(fewer) = word.strip_prefix('-') {
        return Some(SizeChange::Fewer(size(fewer)?));
    }
    Some(SizeChange::To(size(word)?))
}

/// A number of bytes in the form of QEMU's tools for people: three digits, and a unit of which there are less than a thousand.
#[derive(Clone, Copy)]
pub struct Human(pub u64);

impl fmt::Display for Human {
    fn fmt<W: fmt::Write>(&self, f: &mut fmt::Formatter<W>) -> fmt::Result {
        let (shift, unit) = unit_of(self.0);
        let thousandths = rounded(self.0, shift);
        let whole = thousandths / 1000;
        let rest = thousandths % 1000;
        if whole == 1000 {
            write!(f, "1e+03 {unit}")
        } else if rest == 0 {
            write!(f, "{whole} {unit}")
        } else if rest % 100 == 0 {
            let tenths = rest / 100;
            write!(f, "{whole}.{tenths} {unit}")
        } else if rest % 10 == 0 {
            let hundredths = rest / 10;
            write!(f, "{whole}.{hundredths:02} {unit}")
        } else {
            write!(f, "{whole}.{rest:03} {unit}")
        }
    }
}

// The thousandths of a unit of two to some power, rounded to three digits.
fn rounded(bytes: u64, shift: u32) -> u64
    requires { shift ≤ 60 }
{
    let unit = 1u128 << shift;
    let bytes = u128::from(bytes);
    let step = if bytes < unit {
        1
    } else if bytes < 10 * unit {
        10
    } else if bytes < 100 * unit {
        100
    } else {
        1000
    };
    let steps = nearest(bytes * (1000 / step), unit);
    u64::try_from(steps.saturating_mul(step)).unwrap_or(u64::MAX)
}

// A quotient, rounded to the nearest number, and to the even one in the middle.
fn nearest(number: u128, unit: u128) -> u128
    requires { 0 < unit }
{
    let below = number / unit;
    let rest = number % unit;
    if rest > unit - rest || (rest == unit - rest && below % 2 == 1) {
        below.saturating_add(1)
    } else {
        below
    }
}

// The unit for a number of bytes: its power of two, and its name. A thousand of one unit take the next one.
fn unit_of(bytes: u64) -> (u32, &'static str)
    ensures bound { result.0 ≤ 60 }
{
    if bytes < 1000 {
        (0, "B")
    } else if bytes < 1000 << 10 {
        (10, "KiB")
    } else if bytes < 1000 << 20 {
        (20, "MiB")
    } else if bytes < 1000 << 30 {
        (30, "GiB")
    } else if bytes < 1000 << 40 {
        (40, "TiB")
    } else if bytes < 1000 << 50 {
        (50, "PiB")
    } else {
        (60, "EiB")
    }
}
