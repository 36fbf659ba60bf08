//! Path patterns whose walks do not end by themselves.
ghost use Rattle.std.specs.Prelude.{◌≡◌, map};
ghost use Rattle.std.specs.List.{list_any};
ghost use Rattle.pg_meaning.specs.Outlines as outlines;
ghost use Rattle.pg_meaning.specs.Sound.Patterns as sound;

use pg_ast::{Mode, Quant};
use pg_meaning::{CPart, CheckedPath};

/// Whether a quantifier has no upper number.
fn has_no_upper(quant: &Option<Quant>) -> bool
    ensures { result ≡ outlines.has_no_upper quant.now }
{
    match quant {
        Some(quant) => quant.high.is_none(),
        None => false,
    }
}

/// Whether a part may be repeated without end.
fn may_go_on(part: &CPart) -> bool
    ensures { result ≡ outlines.has_no_upper (sound.outline_of part.now).quant }
{
    match part {
        CPart::Node(_) => false,
        CPart::Edge { quant, .. } => has_no_upper(quant),
        CPart::Group { quant, .. } => has_no_upper(quant),
    }
}

/// Whether one of some parts may be repeated without end.
fn may_any_go_on(parts: &[CPart]) -> bool
    ensures { result ≡ list_any (λ p. outlines.has_no_upper (sound.outline_of p).quant) parts.now }
{
    for part in parts {
        if may_go_on(part) {
            return true;
        }
    }
    false
}

/// Whether the walks of a path pattern may go on without end: its mode is WALK, and a part of it may be repeated without end.
pub fn walks_on(path: &CheckedPath) -> bool
    ensures { result ≡ outlines.walks_on path.now.mode (sound.outlines path.now) }
{
    match path.mode {
        Mode::Walk => may_any_go_on(path.parts.as_slice()),
        Mode::Trail => false,
        Mode::Acyclic => false,
        Mode::Simple => false,
    }
}
