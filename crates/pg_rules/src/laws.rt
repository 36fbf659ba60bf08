//! Laws about the rules, each the contract of a function that does nothing.
ghost use Rattle.pg_rules.specs.Accepted.{AcceptedQueriesAreSound, AcceptedChangesAreSound, AcceptedTablesAreFull};
ghost use Rattle.pg_rules.specs.Catalog.Sound.{ShapesAreSound};
ghost use Rattle.pg_rules.specs.Changes.ChangeEffect as effect;
ghost use Rattle.pg_rules.specs.Changes as judgement;
ghost use Rattle.pg_rules.specs.Queries.CheckedQueries.{MentionsAreKept, NamesAreKept};
ghost use Rattle.pg_rules.specs.Queries.TableSets.{SetsAreOf};
ghost use Rattle.pg_rules.specs.Queries.{AcceptedHaveNoPlace};
ghost use Rattle.pg_rules.specs.Written.{StatementsAreWritten, QueriesAreWritten};
ghost use Rattle.pg_rules.specs.Resolving.{ResolvingKeeps, QueryResolvingKeeps};

/// The shapes of a sound catalog are sound, and so is the shape of each of its graphs: what a search over a graph may rely on.
pub fn sound_shapes()
    ensures { ShapesAreSound }
{}

/// Of an INSERT the rules of all changes say what the rules of INSERT alone say: the same refusal and the same checked
/// change, the same first faulty row, and the same writes.
pub fn inserts_as_changes()
    ensures judgement { judgement.InsertsAgree }
    ensures effect { effect.InsertsAgree }
{}

/// A query that is not refused has no place of any of the ten kinds of fault.
pub fn accepted_queries()
    ensures { AcceptedHaveNoPlace }
{}

/// A checked query mentions its variables where the query does, by their numbers, and its columns have the query's names.
pub fn checked_queries()
    ensures mentions { MentionsAreKept }
    ensures names { NamesAreKept }
{}

/// A checked expression has the kind and the width of the one that is written: of a change where its columns stand, and of a
/// query over a graph of a sound catalog.
pub fn resolved_expressions()
    ensures changes { ResolvingKeeps }
    ensures queries { QueryResolvingKeeps }
{}

/// The set that a checked query has for a label expression is the one that has those tables and no others.
pub fn table_sets()
    ensures { SetsAreOf }
{}

/// The checked tree of a query that is not refused over a catalog is sound: what evaluation, compilation and search may rely
/// on.
pub fn accepted_queries_are_sound()
    ensures { AcceptedQueriesAreSound }
{}

/// The checked tree of a change that is not refused is sound.
pub fn accepted_changes_are_sound()
    ensures { AcceptedChangesAreSound }
{}

/// What the grammar reads is written as the laws of accepted changes and queries ask: its literals have their digits, its
/// groups their nodes, and no variable stands in a change.
pub fn written_statements()
    ensures statements { StatementsAreWritten }
    ensures queries { QueriesAreWritten }
{}

/// A table whose definition is read and not refused has a column and a key column at least.
pub fn accepted_tables_are_full()
    ensures { AcceptedTablesAreFull }
{}
