//! The tests of a round, by numbers: whether what it names agrees, also with what was named before, whether the mode permits
//! its hops, and whether its condition is true.
ghost use Rattle.std.specs.Prelude.{ℕ, ◌≡◌, ◌<◌, true, ◌++◌, List, length, map, IfOk, IfSome};
ghost use Rattle.std.specs.List.{list_all};
ghost use Rattle.std.specs.Option.{option_copied};
ghost use Rattle.pg_meaning.specs.Walks.{Hop};
ghost use Rattle.pg_meaning.specs.Meaning.{OfVars};
ghost use Rattle.pg_meaning.specs.Fits.{elements, firsts};
ghost use Rattle.pg_auto.specs.Tests as tests;
ghost use Rattle.pg_expr.specs.Mentions.{mention_view};
ghost use Rattle.pg_search.specs.Chains.{list_at};
ghost use Rattle.pg_search.specs.Hops.{IsChecked};
ghost use Rattle.pg_search.specs.Numbers.{hops_at, mention_of};
ghost use Rattle.pg_search.specs.Seen as spec;

use crate::chains::Link;
use crate::conditions::meets;
use crate::numbered::Numbered;
use pg_ast::Mode;
use pg_auto::tests_tell;
use pg_expr::Mention;
use pg_meaning::CExpr;
use pg_view::View;
use std::alloc::{AllocError, Global};

/// Whether two mentions of one variable name one element.
fn fits(m: (u32, usize), n: (u32, usize)) -> bool
    ensures { result ≡ spec.fits m n }
{
    m.0 != n.0 || m.1 == n.1
}

/// Whether a mention fits each of some others.
fn fits_each(m: (u32, usize), seen: &[(u32, usize)]) -> bool
    ensures { result ≡ list_all (spec.fits m) seen.now }
{
    for mention in seen {
        if !fits(m, *mention) {
            return false;
        }
    }
    true
}

/// Whether mentions of one variable name one element, of which there are at most seven.
pub fn agree(seen: &[(u32, usize)]) -> bool
    ensures { result ≡ spec.agree seen.now }
{
    match seen {
        [] => true,
        [mention, seen @ ..] => fits_each(*mention, seen) && agree(seen),
    }
}

/// Whether mentions that were numbered before fit each of some others.
pub fn fit_all(numbers: &Numbered<'_>, names: usize, seen: &[(u32, usize)]) -> bool
    requires { names < length numbers.now.names }
    ensures { result ≡ spec.fit_all (list_at numbers.now.names names) seen.now }
{
    for mention in seen {
        if numbers
            .names()
            .has_other(names, mention.0 as usize, mention.1)
        {
            return false;
        }
    }
    true
}

/// Whether a mode permits one hop more behind a walk. It goes back through the walk.
fn may_follow(numbers: &Numbered<'_>, mode: Mode, walk: usize, hop: &Link) -> bool
    requires { walk < length numbers.now.walks }
    ensures { result ≡ spec.may_follow_no mode (list_at numbers.now.walks walk) (hop.now.first, hop.now.second) }
{
    let walks = numbers.walks();
    match mode {
        Mode::Walk => true,
        Mode::Trail => !walks.has_first(walk, hop.first),
        Mode::Acyclic => !(hop.second == 0 || walks.has_second(walk, hop.second)),
        Mode::Simple => !walks.has_second(walk, 0) && !walks.has_second(walk, hop.second),
    }
}

/// Whether a mode permits a walk, where it permits the walk without so many of its last hops.
pub fn follows(numbers: &Numbered<'_>, mode: Mode, walk: usize, count: usize) -> bool
    requires { walk < length numbers.now.walks }
    ensures { (base hops : List Hop) → hops_at numbers.now walk ≡ base ++ hops → length hops ≡ count → tests.permits mode numbers.now.start base ≡ true → result ≡ tests.permits mode numbers.now.start (base ++ hops) }
{
    tests_tell();
    numbers.are_numbers();
    if count == 0 {
        return true;
    }
    match numbers.link(walk) {
        Some(link) => {
            follows(numbers, mode, link.before, count - 1)
                && may_follow(numbers, mode, link.before, link)
        }
        None => true,
    }
}

/// Mentions as a condition is judged over them.
fn mentions_of<'a>(
    alloc: Global,
    numbers: &'a Numbered<'_>,
    seen: &[(u32, usize)],
) -> Result<Vec<Mention<'a>>, AllocError>
    ensures { IfOk result (λ mentions. map mention_view mentions.items ≡ map (mention_of numbers.now) seen.now) }
{
    let mut mentions = Vec::new(alloc);
    for (var, elem) in seen {
        mentions.push(Mention {
            var: *var,
            elem: numbers.elem(*elem),
        })?;
    }
    Ok(mentions)
}

/// Whether a condition, where there is one, is true over the first element of each variable that a round names.
pub fn meets_seen<V: View>(
    view: &V,
    alloc: Global,
    numbers: &Numbered<'_>,
    condition: Option<&CExpr>,
    seen: &[(u32, usize)],
) -> Result<bool, AllocError>
    requires { IsChecked (V.shapes view.now) (option_copied condition) }
    ensures { IfOk result (λ b. b ≡ tests.meets (option_copied condition.entry) (OfVars (V.tables view.now) (elements (firsts (map (mention_of numbers.now) seen.now))))) }
{
    match condition {
        None => Ok(true),
        Some(_) => {
            let mentions = mentions_of(alloc, numbers, seen)?;
            Ok(meets(view, condition, &mentions))
        }
    }
}
