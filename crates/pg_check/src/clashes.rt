//! Two mentions of one variable that may not both stand.
ghost use Rattle.std.specs.Prelude.{◌≡◌, ◌&&◌, ◌||◌, not, ℕ, Bool, Some, [], IfOk, OnOk, map, option_map};
ghost use Rattle.std.specs.Map.{lookup};
ghost use Rattle.std.specs.Str.{bytes_eq};
ghost use Rattle.indexmap.specs.IndexMap.{insert_entry};
ghost use Rattle.pg_meaning.specs.Mentions as mention;
ghost use Rattle.pg_rules.specs.Places.{least};
ghost use Rattle.pg_rules.specs.Places as places;
ghost use Rattle.pg_check.specs.Gathered.{mention_view};
ghost use Rattle.pg_check.specs.Clashes as pass;

use crate::mentions::MentionOf;
use indexmap::IndexMap;
use pg_ast::Name;
use pg_rules::{place_if, sooner};
use std::alloc::{AllocError, Global};
use std::marker::Model;

/// What was met of a variable: its first mention, and whether a later one is of another sort or part.
#[derive(Clone, Copy)]
pub struct MetOf<'a> {
    pub first: MentionOf<'a>,
    pub mixed: bool,
}

/// Whether both name nodes or both edges.
fn same_sort(edge: bool, other: bool) -> bool
    ensures { result ≡ mention.same_sort edge other }
{
    if edge { other } else { !other }
}

/// Whether two places are of one quantified part, or both of none.
fn same_part(part: Option<usize>, other: Option<usize>) -> bool
    ensures { result ≡ mention.same_part part other }
{
    match part {
        None => other.is_none(),
        Some(number) => is_number(number, other),
    }
}

/// Whether a number is there, and is this one.
fn is_number(number: usize, other: Option<usize>) -> bool
    ensures { result ≡ mention.same_part (Some number) other }
{
    match other {
        None => false,
        Some(other) => number == other,
    }
}

/// Whether one stands in a quantified part, and the other stands outside it.
fn leaves_part(one: MentionOf<'_>, other: MentionOf<'_>) -> bool
    ensures { result ≡ mention.leaves_part (mention_view one.entry) (mention_view other.entry) }
{
    let same = same_part(one.part, other.part);
    (one.part.is_some() || other.part.is_some()) && !(one.path == other.path && same)
}

/// Whether both name nodes or both edges, and neither leaves the part of the other.
fn are_kin(one: MentionOf<'_>, other: MentionOf<'_>) -> bool
    ensures { result ≡ pass.are_kin (mention_view one.entry) (mention_view other.entry) }
{
    let sort = same_sort(one.edge, other.edge);
    let leaves = leaves_part(one, other);
    sort && !leaves
}

/// What was met of a variable, with one more mention.
fn met_with<'a>(met: Option<MetOf<'a>>, mention: MentionOf<'a>) -> MetOf<'a>
    ensures { pass.met_view result ≡ pass.met_with (option_map pass.met_view met.entry) (mention_view mention.entry) }
{
    match met {
        None => MetOf {
            first: mention,
            mixed: false,
        },
        Some(met) => MetOf {
            first: met.first,
            mixed: mixed_with(met, mention),
        },
    }
}

/// Whether a mention after the first one is not its kin, that one or one before.
fn mixed_with(met: MetOf<'_>, mention: MentionOf<'_>) -> bool
    ensures { result ≡ (met.entry.mixed || not (pass.are_kin (mention_view met.entry.first) (mention_view mention.entry))) }
{
    let kin = are_kin(met.first, mention);
    met.mixed || !kin
}

/// Whether a mention is not kin to each that was met.
fn strays(met: Option<MetOf<'_>>, mention: MentionOf<'_>) -> bool
    ensures { result ≡ pass.strays (option_map pass.met_view met.entry) (mention_view mention.entry) }
{
    match met {
        None => false,
        Some(met) => mixed_with(met, mention),
    }
}

/// What was met of each variable.
#[derive(Drop)]
struct Mets<'a> {
    met: IndexMap<&'a str, MetOf<'a>>,
}

impl<'a> Model for Mets<'a> {
    ghost use Rattle.std.specs.Prelude.{map};
    ghost use Rattle.pg_check.specs.Clashes as pass;

    ghost Value = { pass.Mets };

    ghost view = { λ m. map pass.met_entry m.met.entries };
}

impl<'a> Mets<'a> {
    /// Nothing. It takes no memory.
    fn new(alloc: Global) -> Mets<'a>
        ensures { result ≡ [] }
    {
        Mets {
            met: IndexMap::new(alloc),
        }
    }

    /// What was met of a variable.
    fn get(&self, name: &Name) -> Option<MetOf<'a>>
        ensures { option_map pass.met_view result ≡ lookup (bytes_eq name.now.text) self.now }
    {
        match self.met.get(name.text.as_str()) {
            Some(met) => Some(*met),
            None => None,
        }
    }

    /// Notes what was met of the variable of a name.
    fn put(&mut self, name: &'a Name, met: MetOf<'a>) -> Result<(), AllocError>
        ensures { OnOk result (self.new ≡ insert_entry bytes_eq self.old name.now.text (pass.met_view met.entry)) }
    {
        insert_met(&mut self.met, name.text.as_str(), met)
    }

    /// Whether a mention is not kin to each before it of its variable; it is noted.
    fn note(&mut self, mention: MentionOf<'a>) -> Result<bool, AllocError>
        ensures late { IfOk result (λ late. late ≡ pass.strays (lookup (bytes_eq (mention_view mention.entry).variable.text) self.old) (mention_view mention.entry)) }
        ensures noted { OnOk result (self.new ≡ pass.note_met self.old (mention_view mention.entry)) }
    {
        let met = self.get(mention.variable);
        let late = strays(met, mention);
        self.put(mention.variable, met_with(met, mention))?;
        Ok(late)
    }
}

/// Puts what was met under a name.
fn insert_met<'a>(
    met: &mut IndexMap<&'a str, MetOf<'a>>,
    name: &'a str,
    one: MetOf<'a>,
) -> Result<(), AllocError>
    ensures { OnOk result (map pass.met_entry met.new.entries ≡ insert_entry bytes_eq (map pass.met_entry met.old.entries) name.now (pass.met_view one.entry)) }
{
    match met.insert(name, one) {
        Ok(_) => Ok(()),
        Err(_) => Err(AllocError),
    }
}

/// Whether a mention other than as first or last node was met, with one more mention.
fn inner_with(inner: Option<bool>, mention: MentionOf<'_>) -> bool
    ensures { result ≡ pass.inner_with inner (mention_view mention.entry) }
{
    match inner {
        None => !mention.end,
        Some(inner) => inner || !mention.end,
    }
}

/// Whether a mention returns to a variable where it may not.
fn returns_to(strict: bool, inner: Option<bool>, mention: MentionOf<'_>) -> bool
    ensures { (of : ℕ → Bool) → strict ≡ of mention.entry.path → result ≡ pass.returns_to of inner (mention_view mention.entry) }
{
    match inner {
        None => false,
        Some(inner) => strict && (!mention.end || inner),
    }
}

/// What was met of each variable in each path pattern.
#[derive(Drop)]
struct Inners<'a> {
    inner: IndexMap<(&'a str, usize), bool>,
}

impl<'a> Model for Inners<'a> {
    ghost use Rattle.std.specs.Prelude.{map};
    ghost use Rattle.pg_check.specs.Clashes as pass;

    ghost Value = { pass.Inners };

    ghost view = { λ i. map pass.inner_entry i.inner.entries };
}

impl<'a> Inners<'a> {
    /// Nothing. It takes no memory.
    fn new(alloc: Global) -> Inners<'a>
        ensures { result ≡ [] }
    {
        Inners {
            inner: IndexMap::new(alloc),
        }
    }

    /// What was met of a variable in a path pattern.
    fn get(&self, name: &Name, path: usize) -> Option<bool>
        ensures { result ≡ lookup (pass.place_eq (name.now.text, path)) self.now }
    {
        let place = (name.text.as_str(), path);
        match self.inner.get(&place) {
            Some(inner) => Some(*inner),
            None => None,
        }
    }

    /// Notes what was met of a variable in a path pattern.
    fn put(&mut self, name: &'a Name, path: usize, inner: bool) -> Result<(), AllocError>
        ensures { OnOk result (self.new ≡ insert_entry pass.place_eq self.old (name.now.text, path) inner) }
    {
        insert_inner(&mut self.inner, name.text.as_str(), path, inner)
    }

    /// Whether a mention returns to a variable where it may not; it is noted.
    fn note(&mut self, strict: bool, mention: MentionOf<'a>) -> Result<bool, AllocError>
        ensures late { (of : ℕ → Bool) → strict ≡ of mention.entry.path → IfOk result (λ late. late ≡ pass.returns_to of (lookup (pass.place_eq (pass.place_of (mention_view mention.entry))) self.old) (mention_view mention.entry)) }
        ensures noted { OnOk result (self.new ≡ pass.note_inner self.old (mention_view mention.entry)) }
    {
        let inner = self.get(mention.variable, mention.path);
        let late = returns_to(strict, inner, mention);
        self.put(mention.variable, mention.path, inner_with(inner, mention))?;
        Ok(late)
    }
}

/// Puts what was met under a name and the number of a path pattern.
fn insert_inner<'a>(
    inner: &mut IndexMap<(&'a str, usize), bool>,
    name: &'a str,
    path: usize,
    one: bool,
) -> Result<(), AllocError>
    ensures { OnOk result (map pass.inner_entry inner.new.entries ≡ insert_entry pass.place_eq (map pass.inner_entry inner.old.entries) (name.now, path) one) }
{
    match inner.insert((name, path), one) {
        Ok(_) => Ok(()),
        Err(_) => Err(AllocError),
    }
}

/// Whether a path pattern of a number is one in which a variable may stand twice only as first and as last node.
fn is_strict(walks: &[bool], path: usize) -> bool
    ensures { result ≡ pass.is_strict_in walks.now path }
{
    match walks.get(path) {
        Some(walk) => *walk,
        None => false,
    }
}

/// The place of a mention that may not stand with one before it; it is noted.
fn note_both<'a>(
    mets: &mut Mets<'a>,
    inners: &mut Inners<'a>,
    strict: bool,
    mention: MentionOf<'a>,
) -> Result<Option<u32>, AllocError>
    ensures late { (of : ℕ → Bool) → strict ≡ of mention.entry.path → IfOk result (λ r. r ≡ least (places.place_if (pass.is_late of mets.old inners.old (mention_view mention.entry)) (mention_view mention.entry).variable.at)) }
    ensures mets { OnOk result (mets.new ≡ pass.note_met mets.old (mention_view mention.entry)) }
    ensures inners { OnOk result (inners.new ≡ pass.note_inner inners.old (mention_view mention.entry)) }
{
    let strays = mets.note(mention)?;
    let returns = inners.note(strict, mention)?;
    Ok(place_if(either(strays, returns), mention.variable.at))
}

/// Whether one of two is so.
fn either(one: bool, other: bool) -> bool
    ensures { result ≡ (one || other) }
{
    one || other
}

/// The first mention that may not stand with one before it; `walks` says for each path pattern whether a variable may stand
/// twice only as first and as last node.
pub fn late(
    alloc: Global,
    walks: &[bool],
    mentions: &[MentionOf<'_>],
) -> Result<Option<u32>, AllocError>
    ensures { IfOk result (λ r. r ≡ least (pass.late_after (pass.is_strict_in walks.now) [] [] (map mention_view mentions.now))) }
{
    let mut mets = Mets::new(alloc);
    let mut inners = Inners::new(alloc);
    let mut found = None;
    for mention in mentions {
        let strict = is_strict(walks, mention.path);
        let place = note_both(&mut mets, &mut inners, strict, *mention)?;
        found = sooner(found, place);
    }
    Ok(found)
}
