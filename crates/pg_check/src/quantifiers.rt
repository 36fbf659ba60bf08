//! Quantifiers without an upper number, with a lower number above the upper, and with numbers beyond the limit.
ghost use Rattle.std.specs.Prelude.{◌≡◌, ◌&&◌, is_none, nat_lt};
ghost use Rattle.std.specs.List.{flat_map, list_any};
ghost use Rattle.pg_meaning.specs.Outlines as outline;
ghost use Rattle.pg_rules.specs.Places.{least, place_if};
ghost use Rattle.pg_rules.specs.Queries as spec;
ghost use Rattle.pg_rules.specs.Queries.Collections as part_of;
ghost use Rattle.pg_check.specs.Passes as pass;

use pg_ast::{Mode, Part, PathPattern, Quant, Query, Selector};
use pg_rules::{place_if, sooner};

/// How often a part is repeated.
pub fn quant_of(part: &Part) -> Option<Quant>
    ensures { result ≡ part_of.quant_of part.now }
{
    match part {
        Part::Node(_) => None,
        Part::Edge { quant, .. } => *quant,
        Part::Group { quant, .. } => *quant,
    }
}

/// Whether every walk is allowed.
fn is_walk(mode: Mode) -> bool
    ensures { result ≡ outline.is_walk mode }
{
    match mode {
        Mode::Walk => true,
        Mode::Trail => false,
        Mode::Acyclic => false,
        Mode::Simple => false,
    }
}

/// Whether there is no selector.
fn is_every(selector: Selector) -> bool
    ensures { result ≡ outline.is_every selector }
{
    match selector {
        Selector::Every => true,
        Selector::Any => false,
        Selector::AnyShortest => false,
        Selector::AllShortest => false,
    }
}

/// Whether a part may be repeated without end.
fn has_no_upper(part: &Part) -> bool
    ensures { result ≡ pass.part_repeats part.now }
{
    match quant_of(part) {
        Some(quant) => quant.high.is_none(),
        None => false,
    }
}

/// Whether one of some parts may be repeated without end.
fn any_without_upper(parts: &[Part]) -> bool
    ensures { result ≡ list_any pass.part_repeats parts.now }
{
    for part in parts {
        if has_no_upper(part) {
            return true;
        }
    }
    false
}

/// Whether every walk is allowed in a path pattern, and a part of it may be repeated without end.
pub fn walks_on(path: &PathPattern) -> bool
    ensures { result ≡ (outline.is_walk path.now.mode && list_any pass.part_repeats path.now.parts) }
{
    is_walk(path.mode) && any_without_upper(path.parts.as_slice())
}

/// Whether neither a mode nor a selector bounds the walks of a path pattern.
fn may_repeat(path: &PathPattern) -> bool
    ensures { result ≡ pass.may_repeat path.now }
{
    is_every(path.selector) && walks_on(path)
}

/// The place of a part's quantifier without an upper number, where that is a fault.
fn endless_part(endless: bool, part: &Part) -> Option<u32>
    ensures { result ≡ least (pass.endless_part endless part.now) }
{
    match quant_of(part) {
        Some(quant) => place_if(quant.high.is_none() && endless, quant.at),
        None => None,
    }
}

/// The first quantifier without an upper number, where that is a fault.
#[tactic(auto, using(pg_rules::specs::Places::least_found, pg_rules::specs::Places::sooner_none))]
fn endless_parts(endless: bool, parts: &[Part]) -> Option<u32>
    ensures { result ≡ least (flat_map (pass.endless_part endless) parts.now) }
{
    let mut found = None;
    for part in parts {
        found = sooner(found, endless_part(endless, part));
    }
    found
}

/// The first quantifier of a path pattern without an upper number, where that is a fault.
fn endless_path(path: &PathPattern) -> Option<u32>
    ensures { result ≡ least (pass.endless_path path.now) }
{
    endless_parts(may_repeat(path), path.parts.as_slice())
}

/// The first quantifier of some path patterns without an upper number, where that is a fault.
#[tactic(auto, using(pg_rules::specs::Places::least_found, pg_rules::specs::Places::sooner_none))]
fn endless_paths(paths: &[PathPattern]) -> Option<u32>
    ensures { result ≡ least (flat_map pass.endless_path paths.now) }
{
    let mut found = None;
    for path in paths {
        found = sooner(found, endless_path(path));
    }
    found
}

/// The first quantifier without an upper number, where neither a mode nor a selector bounds the walks.
pub fn unbounded(query: &Query) -> Option<u32>
    ensures { result ≡ least (spec.unbounded query.now) }
{
    endless_paths(query.paths.as_slice())
}

/// Whether an upper number is below a lower.
fn is_below(high: Option<u32>, low: u32) -> bool
    ensures { result ≡ spec.is_below high low }
{
    match high {
        Some(high) => high < low,
        None => false,
    }
}

/// The place of a part's quantifier whose lower number is above its upper.
fn reversed_part(part: &Part) -> Option<u32>
    ensures { result ≡ least (pass.reversed_part part.now) }
{
    match quant_of(part) {
        Some(quant) => place_if(is_below(quant.high, quant.low), quant.at),
        None => None,
    }
}

/// The first quantifier of some parts whose lower number is above its upper.
#[tactic(auto, using(pg_rules::specs::Places::least_found, pg_rules::specs::Places::sooner_none))]
fn reversed_parts(parts: &[Part]) -> Option<u32>
    ensures { result ≡ least (flat_map pass.reversed_part parts.now) }
{
    let mut found = None;
    for part in parts {
        found = sooner(found, reversed_part(part));
    }
    found
}

/// The first quantifier of a path pattern whose lower number is above its upper.
fn reversed_path(path: &PathPattern) -> Option<u32>
    ensures { result ≡ least (pass.reversed_path path.now) }
{
    reversed_parts(path.parts.as_slice())
}

/// The first quantifier of some path patterns whose lower number is above its upper.
#[tactic(auto, using(pg_rules::specs::Places::least_found, pg_rules::specs::Places::sooner_none))]
fn reversed_paths(paths: &[PathPattern]) -> Option<u32>
    ensures { result ≡ least (flat_map pass.reversed_path paths.now) }
{
    let mut found = None;
    for path in paths {
        found = sooner(found, reversed_path(path));
    }
    found
}

/// The first quantifier whose lower number is above its upper.
pub fn bounds(query: &Query) -> Option<u32>
    ensures { result ≡ least (spec.bounds query.now) }
{
    reversed_paths(query.paths.as_slice())
}
