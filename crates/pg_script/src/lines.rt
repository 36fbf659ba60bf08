//! Lines, and the bytes between two places.
ghost use Rattle.std.specs.Prelude.{◌≡◌, ◌≤◌, not, ◌==◌, length, take, filter};
ghost use Rattle.std.specs.List.{prefix_len};
ghost use Rattle.pg_script.specs.declared.fault.ScriptFault.TheVariants.{Bad};
ghost use Rattle.pg_script.specs.Layout as spec;
ghost use Rattle.pg_script.specs.Script.{most_bytes};
ghost use Rattle.pg_script.specs.Passes as reading;

use crate::statements::Span;
use crate::{ScriptFault, ScriptKind};

/// The bytes before a place.
fn front(bytes: &[u8], place: usize) -> &[u8]
    ensures { result.now ≡ take place bytes.now }
{
    let (front, _) = bytes.split_at(place.min(bytes.len()));
    front
}

/// How many line feeds there are.
fn feeds(bytes: &[u8]) -> usize
    ensures value { result ≡ length (filter (λ b. b == 10) bytes.now) }
    ensures within { result ≤ length bytes.now }
{
    bytes.iter().filter(|b| **b == b'\n').count()
}

/// The number, from 1, of the line in which a place stands.
pub fn line_at(bytes: &[u8], place: usize) -> u32
    requires { length bytes.now ≤ most_bytes }
    ensures { result ≡ spec.line_at bytes.now place }
{
    feeds(front(bytes, place)) as u32 + 1
}

/// The fault of that kind in the line of a place.
pub fn bad(bytes: &[u8], place: usize, kind: ScriptKind) -> ScriptFault
    requires { length bytes.now ≤ most_bytes }
    ensures { result ≡ Bad (spec.line_at bytes.now place) kind }
{
    ScriptFault::Bad {
        line: line_at(bytes, place),
        kind,
    }
}

/// The bytes of a span.
pub fn cut(bytes: &[u8], span: Span) -> &[u8]
    ensures { result.now ≡ reading.cut bytes.now span }
{
    let from = (span.from as usize).min(bytes.len());
    let (_, back) = bytes.split_at(from);
    let len = (span.to.saturating_sub(span.from) as usize).min(back.len());
    let (front, _) = back.split_at(len);
    front
}

/// What stands between two places.
pub fn between(bytes: &[u8], from: usize, to: usize) -> &[u8]
    requires low { from ≤ to }
    requires high { to ≤ length bytes.now }
    ensures { result.now ≡ reading.text_at bytes.now from to }
{
    &bytes[from..to]
}

/// How many bytes stand before the first one that is this.
pub fn len_before(byte: u8, bytes: &[u8]) -> usize
    ensures value { result ≡ prefix_len (λ b. not (b == byte)) bytes.now }
    ensures within { result ≤ length bytes.now }
{
    bytes.iter().take_while(|b| **b != byte).count()
}
