//! What stands behind blanks: a token, a quote that is not closed, or neither.
ghost use Rattle.std.specs.Prelude.{◌≡◌, ◌<◌, ◌≤◌, ◌+◌, ◌∷◌, length, drop, slice_index, IfOk};
ghost use Rattle.pg_lex.specs.Front.{IsFront, IsPlain};
ghost use Rattle.pg_lex.specs.Spelled.{front_class};

use crate::TokenKind;
use crate::plain::plain;
use crate::quotes::quoted;
use std::alloc::{AllocError, Global};

/// What stands at a place behind blanks: a token and its length, a quote that isn't closed, or neither.
#[derive(Drop)]
pub enum Front {
    Found(TokenKind, usize),
    Unclosed,
    Nothing,
}

/// The text literal that begins with a quote before this text.
fn literal(alloc: Global, text: &str) -> Result<Front, AllocError>
    ensures { IfOk result (λ found. IsFront found (39 ∷ text.now)) }
{
    match quoted(alloc, b'\'', text)? {
        Some((text, len)) => Ok(Front::Found(TokenKind::Literal(text), len + 1)),
        None => Ok(Front::Unclosed),
    }
}

/// The delimited identifier that begins with a double quote before this text.
fn delimited(alloc: Global, text: &str) -> Result<Front, AllocError>
    ensures { IfOk result (λ found. IsFront found (34 ∷ text.now)) }
{
    match quoted(alloc, b'"', text)? {
        Some((name, len)) => {
            if name.len() == 0 {
                Ok(Front::Nothing)
            } else {
                Ok(Front::Found(TokenKind::Quoted(name), len + 1))
            }
        }
        None => Ok(Front::Unclosed),
    }
}

/// What follows the ASCII character at a place.
fn behind(text: &str, at: usize) -> &str
    requires within { at < length text.now }
    requires ascii { slice_index text.now at < 128 }
    ensures { result.now ≡ drop (at + 1) text.now }
{
    text.split_at(at + 1).1
}

/// What stands at a place behind blanks.
pub fn find_front(alloc: Global, text: &str, at: usize) -> Result<Front, AllocError>
    requires { at ≤ length text.now }
    ensures { IfOk result (λ found. IsFront found (drop at text.now)) }
{
    let (_, left) = text.as_bytes().split_at(at);
    match left {
        [b'\'', ..] => literal(alloc, behind(text, at)),
        [b'"', ..] => delimited(alloc, behind(text, at)),
        _ => unquoted(alloc, left),
    }
}

/// What stands before bytes that begin with no quote.
fn unquoted(alloc: Global, bytes: &[u8]) -> Result<Front, AllocError>
    requires { IsPlain (front_class bytes.now) }
    ensures { IfOk result (λ found. IsFront found bytes.now) }
{
    match plain(alloc, bytes)? {
        Some((kind, len)) => Ok(Front::Found(kind, len)),
        None => Ok(Front::Nothing),
    }
}
