//! What a search numbers: elements, walks and mentions, each once. A walk of one hop more is one number more, and shares
//! with the walk before it what that has.
ghost use Rattle.std.specs.Prelude.{◌≡◌, ◌<◌, [], ◌∷◌, length, slice_get, IfOk, OnOk, OnErr, IfSome, IfNone, Some};
ghost use Rattle.pg_value.specs.declared.shape.ElemId.{ElemId};
ghost use Rattle.pg_meaning.specs.Walks.{last_vertex};
ghost use Rattle.pg_view.specs.declared.view.Neighbour.{Neighbour};
ghost use Rattle.pg_search.specs.Chains.{extended, list_at};
ghost use Rattle.pg_search.specs.Hops.{hop_view};
ghost use Rattle.pg_search.specs.Numbers as spec;
ghost use Rattle.pg_search.specs.Numbers.{AreNumbers, Grow, StandApart, hops_at};
ghost use Rattle.pg_search.specs.Puts.{IsPut};
ghost use Rattle.pg_search.specs.Steps.{IsNumbered, IsLonger, IsNamed};

use crate::chains::{Chains, Link};
use crate::numbering::Numbering;
use pg_value::{ElemId, copy_key};
use pg_view::Neighbour;
use std::alloc::{AllocError, Global};
use std::marker::Model;

/// An equal element. Only want of memory refuses it.
pub fn copy_elem(alloc: Global, elem: &ElemId) -> Result<ElemId, AllocError>
    ensures { IfOk result (λ copy. copy ≡ elem.now) }
{
    Ok(ElemId {
        table: elem.table,
        key: copy_key(alloc, &elem.key)?,
    })
}

/// The place of an element among some, where it stands from now on.
fn insert_elem(elems: &mut Numbering<ElemId>, elem: ElemId) -> Result<usize, AllocError>
    ensures put { OnOk result (IsPut elems.old elem elems.new) }
    ensures place { IfOk result (λ k. slice_get elems.new k ≡ Some elem) }
    ensures err { OnErr result (elems.new ≡ elems.old) }
{
    elems.insert(elem)
}

/// The start of a search, which has the number 0, and the elements, walks and mentions that it has come to.
#[derive(Drop)]
pub struct Numbered<'a> {
    start: &'a ElemId,
    elems: Numbering<ElemId>,
    walks: Chains,
    names: Chains,
}

impl<'a> Model for Numbered<'a> {
    ghost use Rattle.pg_search.specs.Numbers.{Numbers, AreNumbers};

    ghost Value = { Numbers };

    ghost view = { λ s. record { start = s.start.now; elems = s.elems; walks = s.walks; names = s.names } };

    ghost invariant = { λ s. AreNumbers (record { start = s.start.now; elems = s.elems; walks = s.walks; names = s.names }) };
}

impl<'a> Numbered<'a> {
    /// The start alone, the walk without hops and no mentions.
    pub fn new(alloc: Global, start: &'a ElemId) -> Result<Numbered<'a>, AllocError>
        ensures { IfOk result (λ n. n ≡ spec.first_numbers start.now) }
    {
        let mut elems = Numbering::new(alloc);
        let first = copy_elem(alloc, start)?;
        insert_elem(&mut elems, first)?;
        Ok(Numbered {
            start,
            elems,
            walks: Chains::new(alloc),
            names: Chains::new(alloc),
        })
    }

    /// The number of an element, which is among the elements from now on.
    pub fn add(&mut self, elem: ElemId) -> Result<usize, AllocError>
        ensures added { IfOk result (λ k. IsNumbered self.old elem k self.new) }
        ensures walks { self.new.walks ≡ self.old.walks }
        ensures names { self.new.names ≡ self.old.names }
    {
        insert_elem(&mut self.elems, elem)
    }

    /// The number of a walk with a hop more, by the numbers of its edge and of its vertex.
    fn link_walk(&mut self, walk: usize, edge: usize, to: usize) -> Result<usize, AllocError>
        requires walk { walk < length self.old.walks }
        requires edge { edge < length self.old.elems }
        requires to { to < length self.old.elems }
        ensures { IfOk result (λ k. IsLonger self.old walk (spec.hop_of self.old (edge, to)) k self.new) }
    {
        let number = self.walks.push(walk, edge, to)?;
        self.walks.are_distinct();
        Ok(number)
    }

    /// The number of a walk with a hop more.
    pub fn step(&mut self, walk: usize, hop: Neighbour) -> Result<usize, AllocError>
        requires { walk < length self.old.walks }
        ensures { IfOk result (λ k. IsLonger self.old walk (hop_view hop) k self.new) }
    {
        let Neighbour { edge, other } = hop;
        let edge = self.add(edge)?;
        let to = self.add(other)?;
        self.link_walk(walk, edge, to)
    }

    /// The number of mentions with one more, by the number of its element.
    pub fn name(&mut self, names: usize, var: usize, elem: usize) -> Result<usize, AllocError>
        requires names { names < length self.old.names }
        requires elem { elem < length self.old.elems }
        ensures { IfOk result (λ k. IsNamed self.old names ((var, elem) ∷ []) k self.new) }
    {
        let number = self.names.push(names, var, elem)?;
        self.names.are_distinct();
        Ok(number)
    }

    /// The element of a number.
    pub fn elem(&self, number: usize) -> &ElemId
        ensures { result.now ≡ spec.elem_at self.now number }
    {
        match self.elems.get(number) {
            Some(elem) => elem,
            None => self.start,
        }
    }

    /// The walk before the last hop of a walk, and that hop; None exactly of the walk without hops.
    pub fn link(&self, walk: usize) -> Option<&Link>
        requires { walk < length self.now.walks }
        ensures none { IfNone result (slice_get self.now.walks walk ≡ Some []) }
        ensures some { IfSome result (λ link. (link.now.before < walk) × (slice_get self.now.walks walk ≡ Some (extended self.now.walks link.now))) }
    {
        self.walks.link(walk)
    }

    /// The lists of hops by their numbers.
    pub fn walks(&self) -> &Chains
        ensures { result.now ≡ self.now.walks }
    {
        &self.walks
    }

    /// The lists of mentions by their numbers.
    pub fn names(&self) -> &Chains
        ensures { result.now ≡ self.now.names }
    {
        &self.names
    }

    /// That nothing has two numbers, and what lists hold are numbers of elements. It does nothing.
    pub fn are_numbers(&self)
        ensures { AreNumbers self.now }
    {
        let _ = &self.elems;
    }

    /// That different numbers stand for different walks, and for different mentions. It does nothing.
    pub fn are_apart(&self)
        ensures { StandApart self.now }
    {
        self.are_numbers();
    }

    /// The number of the vertex at which a walk ends.
    pub fn last(&self, walk: usize) -> usize
        requires { walk < length self.now.walks }
        ensures within { result < length self.now.elems }
        ensures stands { spec.elem_at self.now result ≡ last_vertex self.now.start (hops_at self.now walk) }
    {
        self.are_numbers();
        match self.link(walk) {
            Some(link) => link.second,
            None => 0,
        }
    }
}
