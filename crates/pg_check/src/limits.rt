//! The first thing beyond a limit.
ghost use Rattle.std.specs.Prelude.{◌≡◌, ◌+◌, ◌*◌, ◌≤◌, ◌<◌, ◌^◌, min, max, nat_lt, slice_get, option_map, length, map, Some};
ghost use Rattle.std.specs.List.{flat_map};
ghost use Rattle.pg_meaning.specs.Outlines as outline;
ghost use Rattle.pg_rules.specs.Places.{least};
ghost use Rattle.pg_rules.specs.Queries as spec;
ghost use Rattle.pg_rules.specs.Queries.Collections as part_of;
ghost use Rattle.pg_check.specs.Passes as pass;

use crate::quantifiers::quant_of;
use pg_ast::{ColumnItem, Filler, Part, PathPattern, Quant};
use pg_rules::{place_if, sooner};

/// The ninth path pattern.
pub fn ninth_path(paths: &[PathPattern]) -> Option<u32>
    ensures { result ≡ option_map (λ p. p.at) (slice_get paths.now 8) }
{
    match paths.get(8) {
        Some(path) => Some(path.at),
        None => None,
    }
}

/// The 33rd column.
pub fn last_column(columns: &[ColumnItem]) -> Option<u32>
    ensures { result ≡ option_map (λ c. c.expr.at) (slice_get columns.now 32) }
{
    match columns.get(32) {
        Some(column) => Some(column.expr.at),
        None => None,
    }
}

/// The fourth of some edges.
fn fourth(edges: &[Filler]) -> Option<u32>
    ensures { result ≡ least (spec.beyond 3 (map (λ f. f.at) edges.now)) }
{
    match edges.get(3) {
        Some(edge) => Some(edge.at),
        None => None,
    }
}

/// The fourth edge of a group.
fn fourth_edge(part: &Part) -> Option<u32>
    ensures { result ≡ least (spec.fourth_edge part.now) }
{
    match part {
        Part::Node(_) => None,
        Part::Edge { .. } => None,
        Part::Group { edges, .. } => fourth(edges.as_slice()),
    }
}

/// The first fourth edge of a group among some parts.
#[tactic(auto, using(pg_rules::specs::Places::least_found, pg_rules::specs::Places::sooner_none))]
fn crowded_parts(parts: &[Part]) -> Option<u32>
    ensures { result ≡ least (flat_map spec.fourth_edge parts.now) }
{
    let mut found = None;
    for part in parts {
        found = sooner(found, fourth_edge(part));
    }
    found
}

/// The first fourth edge of a group of a path pattern.
fn crowded_path(path: &PathPattern) -> Option<u32>
    ensures { result ≡ least (pass.crowded_path path.now) }
{
    crowded_parts(path.parts.as_slice())
}

/// The first fourth edge of a group of some path patterns.
#[tactic(auto, using(pg_rules::specs::Places::least_found, pg_rules::specs::Places::sooner_none))]
pub fn crowded_paths(paths: &[PathPattern]) -> Option<u32>
    ensures { result ≡ least (flat_map pass.crowded_path paths.now) }
{
    let mut found = None;
    for path in paths {
        found = sooner(found, crowded_path(path));
    }
    found
}

/// Whether a number is above 255.
fn is_above(high: Option<u32>) -> bool
    ensures { result ≡ spec.is_above 255 high }
{
    match high {
        Some(high) => high > 255,
        None => false,
    }
}

/// The place of a quantifier with a number above 255.
fn large(quant: Quant) -> Option<u32>
    ensures { result ≡ least (spec.large quant) }
{
    let above = is_above(quant.high);
    place_if(quant.low > 255 || above, quant.at)
}

/// The place of a part's quantifier with a number above 255.
fn large_part(part: &Part) -> Option<u32>
    ensures { result ≡ least (pass.large_part part.now) }
{
    match quant_of(part) {
        Some(quant) => large(quant),
        None => None,
    }
}

/// The first quantifier of some parts with a number above 255.
#[tactic(auto, using(pg_rules::specs::Places::least_found, pg_rules::specs::Places::sooner_none))]
fn large_parts(parts: &[Part]) -> Option<u32>
    ensures { result ≡ least (flat_map pass.large_part parts.now) }
{
    let mut found = None;
    for part in parts {
        found = sooner(found, large_part(part));
    }
    found
}

/// The first quantifier of a path pattern with a number above 255.
fn large_path(path: &PathPattern) -> Option<u32>
    ensures { result ≡ least (pass.large_path path.now) }
{
    large_parts(path.parts.as_slice())
}

/// The first quantifier of some path patterns with a number above 255.
#[tactic(auto, using(pg_rules::specs::Places::least_found, pg_rules::specs::Places::sooner_none))]
pub fn large_paths(paths: &[PathPattern]) -> Option<u32>
    ensures { result ≡ least (flat_map pass.large_path paths.now) }
{
    let mut found = None;
    for path in paths {
        found = sooner(found, large_path(path));
    }
    found
}

/// How many edges a part has.
fn edges_of(part: &Part) -> usize
    ensures { result ≡ length (part_of.outline_of part.now).edges }
{
    match part {
        Part::Node(_) => 0,
        Part::Edge { .. } => 1,
        Part::Group { edges, .. } => edges.len(),
    }
}

/// How often a part counts: by its upper number, or else by its lower one, but once at least.
fn times_of(quant: Option<Quant>) -> u32
    ensures { result ≡ outline.times_of quant }
{
    match quant {
        None => 1,
        Some(quant) => upper_of(quant),
    }
}

/// The upper number of a quantifier, or else its lower one, but one at least.
fn upper_of(quant: Quant) -> u32
    ensures { result ≡ outline.times_of (Some quant) }
{
    match quant.high {
        Some(high) => high,
        None => at_least_one(quant.low),
    }
}

/// A number, but one at least.
fn at_least_one(number: u32) -> u32
    ensures { result ≡ max number 1 }
{
    if number == 0 { 1 } else { number }
}

/// A sum as far as 1,001.
fn capped_sum(total: u128, edges: usize, times: u32) -> u128
    requires { total ≤ 1001 }
    ensures sum { result ≡ min (total + edges * times) 1001 }
    ensures small { result ≤ 1001 }
{
    let sum = total + edges as u128 * times as u128;
    if sum < 1001 { sum } else { 1001 }
}

/// The length number of some parts, as far as 1,001.
fn length_of(parts: &[Part]) -> u128
    ensures { result ≡ min (outline.length_number (map part_of.outline_of parts.now)) 1001 }
{
    let mut total = 0u128;
    for part in parts {
        total = capped_sum(total, edges_of(part), times_of(quant_of(part)));
    }
    total
}

/// The place of a path pattern whose length number is above 1,000.
fn long_path(path: &PathPattern) -> Option<u32>
    ensures { result ≡ least (pass.long_path path.now) }
{
    place_if(length_of(path.parts.as_slice()) > 1000, path.at)
}

/// The first of some path patterns whose length number is above 1,000.
#[tactic(auto, using(pg_rules::specs::Places::least_found, pg_rules::specs::Places::sooner_none))]
pub fn long_paths(paths: &[PathPattern]) -> Option<u32>
    ensures { result ≡ least (flat_map pass.long_path paths.now) }
{
    let mut found = None;
    for path in paths {
        found = sooner(found, long_path(path));
    }
    found
}
