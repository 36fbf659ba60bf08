//! The variables of a query, each at its first mention.
ghost use Rattle.std.specs.Prelude.{◌≡◌, ◌++◌, [], false, is_some, IfOk, OnOk, map, option_map, length, slice_get, position, ◌<◌, IfSome};
ghost use Rattle.std.specs.Map.{lookup};
ghost use Rattle.std.specs.Str.{bytes_eq};
ghost use Rattle.pg_rules.specs.Queries.CheckedQueries as checked;
ghost use Rattle.pg_check.specs.Gathered as pass;
ghost use Rattle.pg_check.specs.Resolved.{Fits, names_in, numbered};

use crate::mentions::MentionOf;
use indexmap::IndexMap;
use pg_ast::Name;
use pg_value::List;
use std::alloc::{AllocError, Global};
use std::marker::Model;

/// Variables in order of first mention, each with that mention.
#[derive(Drop)]
pub struct Variables<'a> {
    firsts: IndexMap<&'a str, MentionOf<'a>>,
}

impl<'a> Model for Variables<'a> {
    ghost use Rattle.std.specs.Prelude.{ℕ, List, map};
    ghost use Rattle.pg_ast.specs.declared.expr.Name.{Name};
    ghost use Rattle.pg_meaning.specs.Mentions.{Mention};
    ghost use Rattle.pg_check.specs.Gathered.{entry_view};

    ghost Value = { List (List ℕ × Mention Name) };

    ghost view = { λ v. map entry_view v.firsts.entries };
}

impl<'a> Variables<'a> {
    /// No variables. It takes no memory.
    fn new(alloc: Global) -> Variables<'a>
        ensures { result ≡ [] }
    {
        Variables {
            firsts: IndexMap::new(alloc),
        }
    }

    /// The first mention of a variable; None exactly where it is not among them.
    pub fn first(&self, name: &Name) -> Option<MentionOf<'a>>
        ensures { option_map pass.mention_view result ≡ lookup (bytes_eq name.now.text) self.now }
    {
        match self.firsts.get(name.text.as_str()) {
            Some(mention) => Some(*mention),
            None => None,
        }
    }

    /// Whether a variable is among them.
    pub fn has(&self, name: &Name) -> bool
        ensures { result ≡ is_some (lookup (bytes_eq name.now.text) self.now) }
    {
        self.first(name).is_some()
    }

    /// Whether a variable that is among them stands for one element for each round of its part.
    pub fn is_grouped(&self, name: &Name) -> Option<bool>
        ensures { result ≡ option_map (λ m. is_some m.part) (lookup (bytes_eq name.now.text) self.now) }
    {
        match self.first(name) {
            Some(mention) => Some(mention.part.is_some()),
            None => None,
        }
    }

    /// The place of the first mention of a variable by its number.
    pub fn place_at(&self, number: usize) -> Option<u32>
        ensures { result ≡ option_map (λ e. e.1.variable.at) (slice_get self.now number) }
    {
        match self.firsts.get_index(number) {
            Some((_, mention)) => Some(mention.variable.at),
            None => None,
        }
    }

    /// The number of a variable, in order of first mention.
    pub fn number_of(&self, name: &Name) -> u32
        requires { Fits self.now }
        ensures { result ≡ checked.number_of (names_in self.now) name.now }
    {
        match self.position(name) {
            Some(number) => number as u32,
            None => 0,
        }
    }

    /// The place of a variable among them.
    fn position(&self, name: &Name) -> Option<usize>
        ensures place { result ≡ position (bytes_eq name.now.text) (map (λ e. e.0) self.now) }
        ensures within { IfSome result (λ i. i < length self.now) }
    {
        self.firsts.get_index_of(name.text.as_str())
    }

    /// The numbers that its variables have among others.
    pub fn numbers(&self, alloc: Global, all: &Variables<'_>) -> Result<List<u32>, AllocError>
        requires { Fits all.now }
        ensures { IfOk result (λ r. r ≡ map (λ e. checked.number_of (names_in all.now) e.1.variable) self.now) }
    {
        numbers_of(alloc, &self.firsts, all)
    }

    /// How many there are.
    pub fn count(&self) -> u32
        requires { Fits self.now }
        ensures { result ≡ length self.now }
    {
        self.firsts.len() as u32
    }

    /// Adds the first mention of a variable that is not among them.
    fn insert(&mut self, mention: MentionOf<'a>) -> Result<(), AllocError>
        requires { is_some (lookup (bytes_eq (pass.mention_view mention).variable.text) self.old) ≡ false }
        ensures { OnOk result (self.new ≡ pass.add_last self.old (pass.mention_view mention.entry)) }
    {
        insert_mention(&mut self.firsts, mention)
    }

    /// Adds the variable of a mention, where it is not among them.
    fn add(&mut self, mention: MentionOf<'a>) -> Result<(), AllocError>
        ensures { OnOk result (self.new ≡ pass.add_mention self.old (pass.mention_view mention.entry)) }
    {
        if self.has(mention.variable) {
            return Ok(());
        }
        self.insert(mention)
    }

    /// The variables of some mentions.
    pub fn of(alloc: Global, mentions: &[MentionOf<'a>]) -> Result<Variables<'a>, AllocError>
        ensures { IfOk result (λ v. v ≡ pass.firsts_after [] (map pass.mention_view mentions.now)) }
    {
        let mut variables = Variables::new(alloc);
        for mention in mentions {
            variables.add(*mention)?;
        }
        Ok(variables)
    }
}

/// Puts the first mention of a variable that is not there behind the others.
fn insert_mention<'a>(
    firsts: &mut IndexMap<&'a str, MentionOf<'a>>,
    mention: MentionOf<'a>,
) -> Result<(), AllocError>
    requires { is_some (lookup (bytes_eq (pass.mention_view mention).variable.text) (map pass.entry_view firsts.old.entries)) ≡ false }
    ensures { OnOk result (map pass.entry_view firsts.new.entries ≡ pass.add_last (map pass.entry_view firsts.old.entries) (pass.mention_view mention.entry)) }
{
    match firsts.insert(mention.variable.text.as_str(), mention) {
        Ok(_) => Ok(()),
        Err(_) => Err(AllocError),
    }
}

/// The numbers that some variables have among others.
fn numbers_of(
    alloc: Global,
    firsts: &IndexMap<&str, MentionOf<'_>>,
    all: &Variables<'_>,
) -> Result<List<u32>, AllocError>
    requires { Fits all.now }
    ensures { IfOk result (λ r. r ≡ numbered (names_in all.now) firsts.now.entries) }
{
    let mut out = List::new(alloc);
    for (_, mention) in firsts.iter() {
        out.push(all.number_of(mention.variable))?;
    }
    Ok(out)
}
