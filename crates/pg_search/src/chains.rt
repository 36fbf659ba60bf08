//! Lists that share their fronts, so that a walk of one hop more is one number more.
ghost use Rattle.std.specs.Prelude.{◌≡◌, ◌≤◌, ◌<◌, [], ◌∷◌, ◌++◌, length, slice_get, Some, IfOk, IfSome, IfNone, OnOk, OnErr};
ghost use Rattle.std.specs.List.{list_any};
ghost use Rattle.pg_meaning.specs.Bindings.{Distinct};
ghost use Rattle.pg_search.specs.Chains as spec;
ghost use Rattle.pg_search.specs.Chains.{IsPushed, list_at};
ghost use Rattle.pg_search.specs.Puts.{IsPut};

use crate::numbering::Numbering;
use std::alloc::{AllocError, Global};
use std::marker::Model;

/// A list by the number of an earlier one and the item behind it.
#[derive(Clone, Copy, PartialEq, Eq, Hash)]
pub struct Link {
    pub before: usize,
    pub first: usize,
    pub second: usize,
}

/// Lists of pairs of numbers, each once. Number 0 is the empty list.
#[derive(Drop)]
pub struct Chains {
    links: Numbering<Link>,
}

impl Model for Chains {
    ghost use Rattle.std.specs.Prelude.{ℕ, List};
    ghost use Rattle.pg_search.specs.Chains.{lists_of, AreLinks};

    ghost Value = { List (List (ℕ × ℕ)) };

    ghost view = { λ c. lists_of c.links };

    ghost invariant = { λ c. AreLinks c.links };
}

impl Chains {
    /// The empty list alone. It takes no memory.
    pub fn new(alloc: Global) -> Chains
        ensures { result ≡ [] ∷ [] }
    {
        Chains {
            links: Numbering::new(alloc),
        }
    }

    /// The number of an earlier list with an item behind it, which is among the lists from now on. After want of memory they
    /// are as before.
    pub fn push(&mut self, before: usize, first: usize, second: usize) -> Result<usize, AllocError>
        requires { before < length self.old }
        ensures ok { IfOk result (λ n. IsPushed self.old before (first, second) n self.new) }
        ensures err { OnErr result (self.new ≡ self.old) }
    {
        let link = Link {
            before,
            first,
            second,
        };
        let place = insert_link(&mut self.links, link)?;
        let count = self.links.len();
        prove!(place < count);
        Ok(place + 1)
    }

    /// The list before the last item of a list, and that item; None exactly of the empty list.
    pub fn link(&self, number: usize) -> Option<&Link>
        requires { number < length self.now }
        ensures none { IfNone result (slice_get self.now number ≡ Some []) }
        ensures some { IfSome result (λ link. (link.now.before < number) × (slice_get self.now number ≡ Some (spec.extended self.now link.now))) }
    {
        let links = &self.links;
        if number == 0 {
            None
        } else {
            links.get(number - 1)
        }
    }

    /// Whether an item of a list has this first number, as a walk that has an edge. It goes back through the list.
    pub fn has_first(&self, number: usize, first: usize) -> bool
        requires { number < length self.now }
        ensures { result ≡ list_any (spec.is_first first) (list_at self.now number) }
    {
        let mut at = number;
        while let Some(link) = self.link(at) {
            if link.first == first {
                return true;
            }
            at = link.before;
        }
        false
    }

    /// Whether an item of a list has this second number, as a walk that comes to a vertex. It goes back through the list.
    pub fn has_second(&self, number: usize, second: usize) -> bool
        requires { number < length self.now }
        ensures { result ≡ list_any (spec.is_second second) (list_at self.now number) }
    {
        let mut at = number;
        while let Some(link) = self.link(at) {
            if link.second == second {
                return true;
            }
            at = link.before;
        }
        false
    }

    /// Whether an item of a list has this first number with another second one, as mentions in which a variable names
    /// another element. It goes back through the list.
    pub fn has_other(&self, number: usize, first: usize, second: usize) -> bool
        requires { number < length self.now }
        ensures { result ≡ list_any (spec.is_other first second) (list_at self.now number) }
    {
        let mut at = number;
        while let Some(link) = self.link(at) {
            if link.first == first && link.second != second {
                return true;
            }
            at = link.before;
        }
        false
    }

    /// The items of a list, in order.
    pub fn items(&self, alloc: Global, number: usize) -> Result<Vec<(usize, usize)>, AllocError>
        requires { number < length self.now }
        ensures { IfOk result (λ items. items.items ≡ list_at self.now number) }
    {
        let mut items = Vec::new(alloc);
        let mut at = number;
        while let Some(link) = self.link(at) {
            items.push((link.first, link.second))?;
            at = link.before;
        }
        items.reverse();
        Ok(items)
    }

    /// That no list stands twice. It does nothing.
    pub fn are_distinct(&self)
        ensures { Distinct self.now }
    {
        let _ = &self.links;
    }
}

/// The place of a link among some, where it stands from now on.
fn insert_link(links: &mut Numbering<Link>, link: Link) -> Result<usize, AllocError>
    ensures put { OnOk result (IsPut links.old link links.new) }
    ensures place { IfOk result (λ k. slice_get links.new k ≡ Some link) }
    ensures err { OnErr result (links.new ≡ links.old) }
{
    links.insert(link)
}
