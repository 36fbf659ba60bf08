//! The words of the order.
ghost use Rattle.std.specs.Prelude.{◌≡◌, ◌-◌, ◌≤◌, length, map, take, drop, IfOk};
ghost use Rattle.pg_script.specs.Layout.{AreTurns};
ghost use Rattle.pg_script.specs.Passes.{turn_at};
ghost use Rattle.pg_script.specs.Passes as spec;
ghost use Rattle.pg_script.specs.Script.{most_bytes};

use crate::lines::between;
use crate::statements::Span;
use pg_lex::{gap_len, is_white};
use pg_value::List;
use std::alloc::{AllocError, Global};

/// Whether no word goes on here.
fn ends_word(bytes: &[u8]) -> bool
    ensures { result ≡ spec.ends_word bytes.now }
{
    match bytes {
        [b'-', b'-', ..] => true,
        [first, ..] => is_white(*first),
        [] => true,
    }
}

/// The length of the word in front.
fn word_len(bytes: &[u8]) -> usize
    ensures value { result ≡ spec.word_len bytes.now }
    ensures within { result ≤ length bytes.now }
{
    let mut at = 0;
    'bytes: loop {
        let (_, left) = bytes.split_at(at);
        if ends_word(left) {
            return at;
        }
        at += 1;
    }
}

/// The words of the order that stand between two places.
pub fn turns(alloc: Global, bytes: &[u8], from: usize, to: usize) -> Result<List<Span>, AllocError>
    requires short { length bytes.now ≤ most_bytes }
    requires low { from ≤ to }
    requires high { to ≤ length bytes.now }
    ensures { IfOk result (λ spans. AreTurns from (take (to - from) (drop from bytes.now)) (map (turn_at bytes.now) spans)) }
{
    let mut out = List::new(alloc);
    let mut at = from;
    'words: loop {
        let word = at + gap_len(between(bytes, at, to));
        let len = word_len(between(bytes, word, to));
        if len == 0 {
            return Ok(out);
        }
        out.push(Span {
            from: word as u32,
            to: (word + len) as u32,
        })?;
        at = word + len;
    }
}
