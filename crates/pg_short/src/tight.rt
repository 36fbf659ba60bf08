//! The tight steps of a search that has ended: those that lead to their spots by least hops.
ghost use Rattle.std.specs.Prelude.{ℕ, ◌≡◌, ◌<◌, ◌+◌, ◌++◌, ◌==◌, ◌&&◌, [], ◌∷◌, nat_lt, map, length, slice_get, Some, IfOk, OnOk};
ghost use Rattle.pg_short.specs.Steps.{Step, spot_view};
ghost use Rattle.pg_short.specs.Found.{steps_in};
ghost use Rattle.pg_short.specs.Tight as spec;
ghost use Rattle.pg_short.specs.Tight.{AreTogether, AreTight, IsPlace};

use crate::search::Search;
use crate::visited::place_of;
use std::alloc::{AllocError, Global};

/// So many lists without numbers.
fn empty_lists(alloc: Global, count: usize) -> Result<Vec<Vec<usize>>, AllocError>
    ensures count { IfOk result (λ lists. length (spec.numbers_in lists.items) ≡ count) }
    ensures empty { IfOk result (λ lists. (p : ℕ) → spec.list_in (spec.numbers_in lists.items) p ≡ []) }
{
    let mut lists = Vec::new(alloc);
    for _place in 0..count {
        lists.push(Vec::new(alloc))?;
    }
    Ok(lists)
}

/// Appends a number to a list.
fn push_number(list: &mut Vec<usize>, number: usize) -> Result<(), AllocError>
    ensures { OnOk result (list.new.items ≡ list.old.items ++ number ∷ []) }
{
    list.push(number)?;
    Ok(())
}

/// Appends a number to the list of a place.
fn push_at(lists: &mut Vec<Vec<usize>>, place: usize, number: usize) -> Result<(), AllocError>
    requires { place < length lists.old.items }
    ensures { OnOk result (spec.IsAt (spec.numbers_in lists.old.items) place number (spec.numbers_in lists.new.items)) }
{
    push_number(&mut lists[place], number)
}

/// Whether a step goes on from another, and leads to the spot of a place by as few hops as the step that is visited there.
fn is_least(search: &Search, place: usize, number: usize) -> bool
    requires together { AreTogether (steps_in search.now) search.now.order.items (map spot_view search.now.spots.keys) }
    requires place { place < length search.now.order.items }
    requires number { number < length search.now.found.items }
    ensures { (step least : Step) → slice_get (steps_in search.now) number ≡ Some step → IsPlace (steps_in search.now) search.now.order.items place least → result ≡ (nat_lt step.before number && (step.long == least.long)) }
{
    let step = &search.found[number];
    step.before < number && step.long == search.found[search.order[place]].long
}

/// Puts the number of a step by the place that it leads to, where it is tight.
fn push_tight(search: &Search, number: usize, lists: &mut Vec<Vec<usize>>) -> Result<(), AllocError>
    requires together { AreTogether (steps_in search.now) search.now.order.items (map spot_view search.now.spots.keys) }
    requires number { number < length search.now.found.items }
    requires before { AreTight (steps_in search.now) search.now.order.items (spec.numbers_in lists.old.items) number }
    ensures { OnOk result (AreTight (steps_in search.now) search.now.order.items (spec.numbers_in lists.new.items) (number + 1)) }
{
    match place_of(&search.spots, &search.found[number].spot) {
        Some(place) => {
            if is_least(search, place, number) {
                push_at(lists, place, number)
            } else {
                Ok(())
            }
        }
        None => Ok(()),
    }
}

/// The numbers of the tight steps, by the places that they lead to.
pub fn tight_steps(alloc: Global, search: &Search) -> Result<Vec<Vec<usize>>, AllocError>
    requires together { AreTogether (steps_in search.now) search.now.order.items (map spot_view search.now.spots.keys) }
    ensures { IfOk result (λ lists. AreTight (steps_in search.now) search.now.order.items (spec.numbers_in lists.items) (length search.now.found.items)) }
{
    let mut lists = empty_lists(alloc, search.order.len())?;
    for number in 0..search.found.len() {
        push_tight(search, number, &mut lists)?;
    }
    Ok(lists)
}
