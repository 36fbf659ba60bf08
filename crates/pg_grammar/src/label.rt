//! Label expressions. `depth` is how many parentheses may still open, `left` how many operators may still come.
ghost use Rattle.std.specs.Prelude.{◌≡◌, ◌<◌};
ghost use Rattle.pg_ast.specs.declared.pattern.LabelExpr.TheVariants.{Not, And, Or};
ghost use Rattle.pg_ast.specs.Grammar.Labels as grammar;
ghost use Rattle.pg_grammar.specs.Kit.Reading.{Reads, OfMemory};
ghost use Rattle.pg_grammar.specs.Read.Labels as spec;

use crate::{Cursor, Fault, name};
use pg_ast::{CountedLabel, LabelExpr};
use sqlite_items::Boxed;
use std::alloc::Global;

/// A label expression behind which `left` operators may come.
fn labelled(label: LabelExpr, left: u8) -> CountedLabel
    ensures { result ≡ grammar.labelled label left }
{
    CountedLabel { label, left }
}

/// `!` before `x`.
fn not_of(alloc: Global, x: CountedLabel) -> Result<CountedLabel, Fault>
    ensures { OfMemory result (grammar.labelled (Not x.label) x.left) }
{
    let left = x.left;
    let label = Boxed::new(alloc, x.label)?;
    Ok(labelled(LabelExpr::Not(label), left))
}

/// `&` between `x` and `y`.
fn and_of(alloc: Global, x: CountedLabel, y: CountedLabel) -> Result<CountedLabel, Fault>
    ensures { OfMemory result (grammar.labelled (And x.label y.label) y.left) }
{
    let left = y.left;
    let x = Boxed::new(alloc, x.label)?;
    let y = Boxed::new(alloc, y.label)?;
    Ok(labelled(LabelExpr::And(x, y), left))
}

/// `|` between `x` and `y`.
fn or_of(alloc: Global, x: CountedLabel, y: CountedLabel) -> Result<CountedLabel, Fault>
    ensures { OfMemory result (grammar.labelled (Or x.label y.label) y.left) }
{
    let left = y.left;
    let x = Boxed::new(alloc, x.label)?;
    let y = Boxed::new(alloc, y.label)?;
    Ok(labelled(LabelExpr::Or(x, y), left))
}

/// `%` or a label.
#[tactic(auto, unfolding(crate::specs::Read::Labels::base))]
fn base(alloc: Global, cursor: &mut Cursor<'_>, left: u8) -> Result<CountedLabel, Fault>
    ensures { Reads (spec.base left cursor.old) result cursor.new }
{
    if cursor.eat_symbol(b"%") {
        return Ok(labelled(LabelExpr::All, left));
    }
    let name = name(alloc, cursor)?;
    Ok(labelled(LabelExpr::Is(name), left))
}

/// Any number of `!` before a primary.
#[cycle(labels)]
#[tactic(auto, unfolding(crate::specs::Read::Labels::complement))]
fn complement(
    alloc: Global,
    cursor: &mut Cursor<'_>,
    depth: u8,
    left: u8,
) -> Result<CountedLabel, Fault>
    ensures { Reads (spec.complement (spec.primary depth) left cursor.old) result cursor.new }
{
    if left > 0 && cursor.eat_symbol(b"!") {
        let arg = complement(alloc, cursor, depth, left - 1)?;
        return not_of(alloc, arg);
    }
    primary(alloc, cursor, depth, left)
}

/// `&` and what stands behind it, behind `x`.
#[cycle(labels)]
#[tactic(auto, unfolding(crate::specs::Read::Labels::next_complement))]
fn next_complement(
    alloc: Global,
    cursor: &mut Cursor<'_>,
    depth: u8,
    x: CountedLabel,
) -> Result<CountedLabel, Fault>
    requires { 0 < x.left }
    ensures { Reads (spec.next_complement (spec.primary depth) x cursor.old) result cursor.new }
{
    cursor.symbol(b"&")?;
    let y = complement(alloc, cursor, depth, x.left - 1)?;
    and_of(alloc, x, y)
}

/// What `&` joins.
#[cycle(labels)]
#[tactic(auto, unfolding(crate::specs::Kit::Reading::turns))]
fn intersection(
    alloc: Global,
    cursor: &mut Cursor<'_>,
    depth: u8,
    left: u8,
) -> Result<CountedLabel, Fault>
    ensures { Reads (spec.intersection (spec.primary depth) left cursor.old) result cursor.new }
{
    let mut x = complement(alloc, cursor, depth, left)?;
    for _turn in 0..cursor.len() {
        if x.left == 0 || !cursor.sees_symbol(b"&") {
            break;
        }
        x = next_complement(alloc, cursor, depth, x)?;
    }
    Ok(x)
}

/// `|` and what stands behind it, behind `x`.
#[cycle(labels)]
#[tactic(auto, unfolding(crate::specs::Read::Labels::next_intersection))]
fn next_intersection(
    alloc: Global,
    cursor: &mut Cursor<'_>,
    depth: u8,
    x: CountedLabel,
) -> Result<CountedLabel, Fault>
    requires { 0 < x.left }
    ensures { Reads (spec.next_intersection (spec.primary depth) x cursor.old) result cursor.new }
{
    cursor.symbol(b"|")?;
    let y = intersection(alloc, cursor, depth, x.left - 1)?;
    or_of(alloc, x, y)
}

/// What `|` joins: a whole label expression.
#[cycle(labels)]
#[tactic(auto, unfolding(crate::specs::Kit::Reading::turns))]
fn union(alloc: Global, cursor: &mut Cursor<'_>, depth: u8, left: u8) -> Result<CountedLabel, Fault>
    ensures { Reads (spec.union (spec.primary depth) left cursor.old) result cursor.new }
{
    let mut x = intersection(alloc, cursor, depth, left)?;
    for _turn in 0..cursor.len() {
        if x.left == 0 || !cursor.sees_symbol(b"|") {
            break;
        }
        x = next_intersection(alloc, cursor, depth, x)?;
    }
    Ok(x)
}

/// A label expression in parentheses.
#[cycle(labels)]
#[tactic(auto, unfolding(crate::specs::Read::Labels::paren))]
fn paren(alloc: Global, cursor: &mut Cursor<'_>, depth: u8, left: u8) -> Result<CountedLabel, Fault>
    ensures { Reads (spec.paren (spec.primary depth) left cursor.old) result cursor.new }
{
    cursor.symbol(b"(")?;
    let inner = union(alloc, cursor, depth, left)?;
    Ok(cursor.closed(b")", inner)?)
}

/// What the operators join.
#[cycle(labels)]
fn primary(
    alloc: Global,
    cursor: &mut Cursor<'_>,
    depth: u8,
    left: u8,
) -> Result<CountedLabel, Fault>
    ensures { Reads (spec.primary depth left cursor.old) result cursor.new }
{
    if depth > 0 && cursor.sees_symbol(b"(") {
        return paren(alloc, cursor, depth - 1, left);
    }
    base(alloc, cursor, left)
}

/// Reads a label expression that stands in no other: at most 255 of the operators `|`, `&` and `!`, of which `!` binds
/// closest and `|` least, and at most 64 parentheses open at any place.
#[tactic(auto, unfolding(crate::specs::Read::Labels::labels))]
pub fn label_expr(alloc: Global, cursor: &mut Cursor<'_>) -> Result<LabelExpr, Fault>
    ensures { Reads (spec.labels cursor.old) result cursor.new }
{
    let CountedLabel { label, left: _ } = union(alloc, cursor, 64, 255)?;
    Ok(label)
}
