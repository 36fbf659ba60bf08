//! Lists in key order, and changes put on them: definitions and laws, generic in the item, its key and an exact order.
#![tactic(auto)]

ghost use Rattle.std.specs.declared.cmp.Ordering.{Ordering};
ghost use Rattle.pg_keyed.specs.Adjacency.{SameAtEnds};
ghost use Rattle.pg_keyed.specs.Orders.{Exact};

/// The law of edges that stand in order of an end and then of their key: those at an end, as they stand there, are the
/// table's edges at that end in key order.
pub fn edges_at_ends<X, V, K>()
    ensures { (place : X → V) (key : X → K) (vcmp : V → V → Ordering) (cmp : K → K → Ordering) → Exact vcmp → Exact cmp → SameAtEnds place key vcmp cmp }
{}
