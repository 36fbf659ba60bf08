//! Laws about what queries mean, each the contract of a function that does nothing.
ghost use Rattle.std.specs.Prelude.{ℕ, ◌≡◌, Contains};
ghost use Rattle.pg_value.specs.Tables.{Tables};
ghost use Rattle.pg_meaning.specs.CExprs.{CTree};
ghost use Rattle.pg_meaning.specs.Meaning.{Assignment, OfVars, value_of, vars_of};
ghost use Rattle.pg_meaning.specs.Bindings.{Binding, path_binding};
ghost use Rattle.pg_meaning.specs.Sound.Bindings.{BindingsStand, BoundTuplesFit, TuplesFit};
ghost use Rattle.pg_meaning.specs.Sound.Changes.{ValuesAreNarrow};
ghost use Rattle.pg_meaning.specs.Sound.Kinds.{ValuesAreWithin};
ghost use Rattle.pg_meaning.specs.Reads.{HopsAreNeighbours, SelectionsByStart};
ghost use Rattle.pg_meaning.specs.OneAnswer.{AnswersAreOne};
ghost use Rattle.pg_meaning.specs.OneHop.{OneHopBindings, OneHopAnswers};

/// The bindings of `(x)-[e]->(y)` are the edges of the graph, each once: under WALK, without a selector and conditions,
/// over tables in order, where the graph's edge tables differ.
pub fn one_hop_bindings()
    ensures { OneHopBindings }
{}

/// The answer of a query with that pattern and no final WHERE is one row for each edge, in any order.
#[tactic(auto, using(crate::specs::OneHop::one_hop_answers))]
pub fn one_hop_answers()
    ensures { OneHopAnswers }
{}

/// The value of an expression rests on the elements of its own variables, and not on what other variables stand for.
pub fn value_by_variables()
    ensures { (x : CTree) (tables : Tables) (f h : Assignment) → ((y : ℕ) → Contains (vars_of x) y → f y ≡ h y) → value_of x (OfVars tables f) ≡ value_of x (OfVars tables h) }
{}

/// A binding is known by its vertices, its edges and the lists of its variables.
pub fn binding_by_path()
    ensures { (a b : Binding) → path_binding a ≡ path_binding b → a ≡ b }
{}

/// The value of a checked expression is at most two to its width in size: over a row that fits its columns, and over tables
/// that fit their shapes and variables whose lists are shorter than 2^48.
pub fn values_within_widths()
    ensures { ValuesAreWithin }
{}

/// Over a sound graph an arrow leads over a hop exactly where the hop is among the neighbours of its vertex.
pub fn hops_are_neighbours()
    ensures { HopsAreNeighbours }
{}

/// What is selected from each vertex is together what is selected.
pub fn selections_by_start()
    ensures { SelectionsByStart }
{}

/// The value of a sound expression has at most 126 binary digits, over everything that fits what it reads, and so has each
/// value of SET over a row that fits its table.
pub fn narrow_values()
    ensures { ValuesAreNarrow }
{}

/// A binding of a sound path pattern names rows of the graph's tables alone, and each of its lists has at most one element
/// more than its walk has hops.
pub fn bindings_stand()
    ensures { BindingsStand }
{}

/// Of a sound query, bindings of its path patterns give each singleton one row, and each group variable rows of which there
/// is at most one more than the longest walk has hops. Slots that have these are what the final condition and the columns may
/// be evaluated over, with the same values.
pub fn tuples_fit()
    ensures tuples { TuplesFit }
    ensures slots { BoundTuplesFit }
{}

/// Two answers of a query without ANY and ANY SHORTEST have the same rows, each as often, and in value order they are equal.
pub fn answers_are_one()
    ensures { AnswersAreOne }
{}
