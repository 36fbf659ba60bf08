//! The statement AFTER, with which a session waits for another.

ghost use Rattle.std.specs.Prelude.{ℕ, List, ◌≡◌, ◌↔◌, ◌-◌, ◌^◌, map, min, codes, IsTrue, MatchOption};
ghost use Rattle.std.specs.Str.{bytes_eq};
ghost use Rattle.pg_lex.specs.Bytes as bytes_spec;
ghost use Rattle.pg_script.specs.After as spec;
ghost use Rattle.pg_script.specs.After.{number_from, IsAfter};
ghost use Rattle.pg_script.specs.Passes.Awaited.{HasAwaited, HasEnd, HasGap, HasName, HasNumber, IsLongestFront};

use pg_lex::{digits_len, gap_len, is_letter, is_word_byte, word_len};

/// The session that a statement AFTER names, as it is spelled, and the number of its items that are awaited. A number
/// that is greater than 4,294,967,295 is that.
#[derive(Clone, Copy)]
pub struct Wait<'a> {
    pub name: &'a [u8],
    pub number: u32,
}

/// Whether the first token of a statement, which is its first bytes, is the regular word AFTER, in upper or lower case.
pub fn begins_after(bytes: &[u8]) -> bool
    ensures { result ≡ spec.begins_after bytes.now }
{
    if bytes.len() < 5 {
        return false;
    }
    let (word, rest) = bytes.split_at(5);
    spells_after(word) && !begins_word(rest)
}

/// Whether the bytes are AFTER, in upper or lower case.
fn spells_after(word: &[u8]) -> bool
    ensures { result ≡ bytes_eq (map bytes_spec.upper word.now) (codes "AFTER") }
{
    word.eq_ignore_ascii_case(b"AFTER")
}

/// What the statement `AFTER name n;` awaits. None where the bytes of a statement are anything else, also where they
/// begin with AFTER or go on behind the `;`.
pub fn awaited(bytes: &[u8]) -> Option<Wait<'_>>
    ensures { MatchOption result ((name digits : List ℕ) → IsAfter bytes.now name digits → ⊥) (λ a. HasAwaited bytes.now a.name.now a.number) }
{
    if !begins_after(bytes) {
        return None;
    }
    let (_, rest) = bytes.split_at(5);
    let (name, digits) = name_and_digits(rest)?;
    Some(Wait {
        name,
        number: number_of(digits),
    })
}

/// The name and the digits behind AFTER, where nothing but the `;` follows them.
fn name_and_digits(bytes: &[u8]) -> Option<(&[u8], &[u8])>
    ensures { MatchOption result ((name digits : List ℕ) → HasName bytes.now name digits → ⊥) (λ found. HasName bytes.now found.0.now found.1.now) }
{
    let rest = behind_gap(bytes)?;
    let (name, tail) = word_front(rest);
    if !begins_name(name) {
        return None;
    }
    let digits = digits_behind(tail)?;
    Some((name, digits))
}

/// The digits behind the name, where nothing but the `;` follows them.
fn digits_behind(bytes: &[u8]) -> Option<&[u8]>
    ensures { MatchOption result ((digits : List ℕ) → HasNumber bytes.now digits → ⊥) (λ digits. HasNumber bytes.now digits.now) }
{
    let rest = behind_gap(bytes)?;
    let (digits, tail) = digits_front(rest);
    if digits.is_empty() || !ends(tail) {
        return None;
    }
    Some(digits)
}

/// What stands behind white space and comments, of which there must be some.
fn behind_gap(bytes: &[u8]) -> Option<&[u8]>
    ensures { MatchOption result ((rest : List ℕ) → HasGap bytes.now rest → ⊥) (λ rest. HasGap bytes.now rest.now) }
{
    let len = gap_len(bytes);
    if len == 0 {
        return None;
    }
    Some(bytes.split_at(len).1)
}

/// Whether nothing but the `;` stands here, behind white space and comments.
fn ends(bytes: &[u8]) -> bool
    ensures { IsTrue result ↔ HasEnd bytes.now }
{
    let (_, rest) = bytes.split_at(gap_len(bytes));
    rest == b";".as_slice()
}

/// The word in front, and what stands behind it.
fn word_front(bytes: &[u8]) -> (&[u8], &[u8])
    ensures { IsLongestFront bytes_spec.is_word_byte bytes.now result.0.now result.1.now }
{
    bytes.split_at(word_len(bytes))
}

/// The digits in front, and what stands behind them.
fn digits_front(bytes: &[u8]) -> (&[u8], &[u8])
    ensures { IsLongestFront bytes_spec.is_digit bytes.now result.0.now result.1.now }
{
    bytes.split_at(digits_len(bytes))
}

/// Whether a letter or `_` stands in front.
fn begins_name(bytes: &[u8]) -> bool
    ensures { result ≡ bytes_spec.starts bytes_spec.is_letter bytes.now }
{
    match bytes {
        [] => false,
        [first, ..] => is_letter(*first),
    }
}

/// Whether a byte of words stands in front.
fn begins_word(bytes: &[u8]) -> bool
    ensures { result ≡ bytes_spec.starts bytes_spec.is_word_byte bytes.now }
{
    match bytes {
        [] => false,
        [first, ..] => is_word_byte(*first),
    }
}

/// The number that decimal digits stand for, or 4,294,967,295 where it is greater.
fn number_of(digits: &[u8]) -> u32
    ensures { result ≡ min (2 ^ 32 - 1) (number_from 0 digits.now) }
{
    let mut number: u32 = 0;
    for digit in digits {
        number = number
            .saturating_mul(10)
            .saturating_add(u32::from(digit.saturating_sub(b'0')));
    }
    number
}
