//! The laws of stepped runs, each the contract of a function that does nothing.
ghost use Rattle.pg_script.specs.declared.script.Script.{Script};
ghost use Rattle.pg_script.specs.Judged.{Judges};
ghost use Rattle.pg_session.specs.Legality.{SteppedRunsAreLegal, SteppedRunsAreOne, LegalLogsFit, NotedSectionsAreLegal};

/// A language that scripts may be written in. It has no code: its members are definitions alone.
pub trait Language {
    /// What definitions have made so far.
    ghost Catalog: { Type 0 };

    /// Definitions, changes and queries as they are written.
    ghost Definition: { Type 0 };

    ghost Change: { Type 0 };

    ghost Query: { Type 0 };

    /// Changes and queries that the catalog has been asked about.
    ghost CheckedChange: { Type 0 };

    ghost CheckedQuery: { Type 0 };

    /// What it says of the items of a script.
    ghost judges: { Script → Judges Catalog Definition Change Query CheckedChange CheckedQuery };
}

/// The law that the transcript of every stepped run is legal, in any language.
#[tactic(auto, using(crate::proofs::SteppedLegal::stepped_runs_are_legal))]
pub fn stepped_runs_are_legal<L: Language>()
    ensures { SteppedRunsAreLegal L.judges }
{}

/// The law that under a language that is exact for plain queries a script whose queries are plain has at most one transcript
/// of a stepped run, and so one text.
pub fn stepped_runs_are_one<L: Language>()
    ensures { SteppedRunsAreOne L.judges }
{}

/// The law that under a language whose changes write what fits, each commit of a legal transcript fits the shapes of its
/// definitions, and its writes stand in order of table and key, no place twice.
pub fn legal_logs_fit<L: Language>()
    ensures { LegalLogsFit L.judges }
{}

/// The law that a section which was judged alone, by the AFTERs that it noted, is legal in the whole run, where each AFTER
/// that it noted was met there.
pub fn noted_sections_are_legal<L: Language>()
    ensures { NotedSectionsAreLegal L.judges }
{}
