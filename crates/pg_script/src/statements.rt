//! The statements of a section's text: where each begins and ends.

ghost use Rattle.std.specs.Prelude.{◌≡◌, ◌≢◌, ◌+◌, ◌<◌, ◌≤◌, ◌^◌, ◌∷◌, ◌++◌, true, length, take, drop, map, IfOk, OnOk};
ghost use Rattle.pg_script.specs.Statements.{IsUncut, is_quote};
ghost use Rattle.pg_script.specs.Passes.Spans.{BeginsAtom, BeginsPiece, HasSpans, IsCut, span_of, spans_of};

use crate::lines::len_before;
use pg_lex::gap_len;
use pg_value::List;
use std::alloc::{AllocError, Global};

/// The bytes of a statement, from one place up to another, with its `;` where it has one.
#[derive(Clone, Copy)]
pub struct Span {
    pub from: u32,
    pub to: u32,
}

/// A piece between two cuts: the lengths of the white space and comments in front of it, of the rest of it, and of the `;`
/// behind it, which is 0 at the end of the text.
#[derive(Clone, Copy)]
struct Piece {
    gap: usize,
    body: usize,
    end: usize,
}

/// The statements of a text whose first byte stands at a place: it is cut at each `;` outside text literals, delimited
/// identifiers and comments. A piece of white space and comments alone is no statement; any other is one, from its first
/// byte outside of these, and the last one may lack its `;`.
///
/// An error is want of memory.
pub fn statements(alloc: Global, text: &[u8], at: u32) -> Result<List<Span>, AllocError>
    requires { at + length text.now < 2 ^ 32 }
    ensures { IfOk result (HasSpans at text.now) }
{
    let mut out = List::new(alloc);
    let mut from = 0;
    'pieces: loop {
        let (_, left) = text.split_at(from);
        let piece = front_piece(left);
        push_piece(&mut out, &piece, at + from as u32)?;
        if piece.end == 0 {
            return Ok(out);
        }
        from += piece.gap + piece.body + piece.end;
    }
}

/// Appends the statement of a piece that begins at a place, if it has one.
fn push_piece(out: &mut List<Span>, piece: &Piece, place: u32) -> Result<(), AllocError>
    requires { place + (piece.now.gap + piece.now.body + piece.now.end) < 2 ^ 32 }
    ensures { OnOk result (out.new ≡ out.old ++ spans_of place piece.now) }
{
    if piece.body == 0 {
        return Ok(());
    }
    let from = place + piece.gap as u32;
    out.push(Span {
        from,
        to: from + (piece.body + piece.end) as u32,
    })
}

/// The piece in front.
fn front_piece(bytes: &[u8]) -> Piece
    ensures { BeginsPiece bytes.now result }
{
    let gap = gap_len(bytes);
    let (_, rest) = bytes.split_at(gap);
    let body = piece_len(rest);
    let end = if gap + body == bytes.len() { 0 } else { 1 };
    Piece { gap, body, end }
}

/// The length of what stands in front of the first `;` outside quotes and comments, or of all where none stands.
fn piece_len(bytes: &[u8]) -> usize
    ensures within { result ≤ length bytes.now }
    ensures uncut { IsUncut (take result bytes.now) (drop result bytes.now) }
    ensures cut { IsCut (drop result bytes.now) }
{
    let mut at = 0;
    'atoms: loop {
        let (_, left) = bytes.split_at(at);
        let len = atom_len(left);
        if len == 0 {
            return at;
        }
        at += len;
    }
}

/// The length of the byte, the comment or the text in quotes in front, or 0 at a `;` and at the end.
fn atom_len(bytes: &[u8]) -> usize
    ensures within { result ≤ length bytes.now }
    ensures none { result ≡ 0 → IsCut bytes.now }
    ensures some { 0 < result → BeginsAtom result bytes.now }
{
    match bytes {
        [] | [b';', ..] => 0,
        [first, rest @ ..] => first_atom_len(*first, rest),
    }
}

/// The length of the atom that begins with a byte, which is no `;`.
fn first_atom_len(first: u8, rest: &[u8]) -> usize
    requires { first ≢ 59 }
    ensures within { result ≤ length (first ∷ rest.now) }
    ensures some { 0 < result }
    ensures begins { BeginsAtom result (first ∷ rest.now) }
{
    match first {
        b'"' | b'\'' => quoted_len(first, rest),
        b'-' => dash_len(rest),
        _ => 1,
    }
}

/// The length of the text that begins with a quote, up to the next such quote or to the end.
fn quoted_len(quote: u8, rest: &[u8]) -> usize
    requires { is_quote quote ≡ true }
    ensures within { result ≤ length (quote ∷ rest.now) }
    ensures some { 0 < result }
    ensures begins { BeginsAtom result (quote ∷ rest.now) }
{
    let inner = len_before(quote, rest);
    if inner == rest.len() {
        1 + inner
    } else {
        2 + inner
    }
}

/// The length of the comment or the dash that begins with a dash.
fn dash_len(rest: &[u8]) -> usize
    ensures within { result ≤ length (45 ∷ rest.now) }
    ensures some { 0 < result }
    ensures begins { BeginsAtom result (45 ∷ rest.now) }
{
    match rest {
        [b'-', line @ ..] => 2 + len_before(b'\n', line),
        _ => 1,
    }
}
