//! Laws of the language of scripts, each the contract of a function that does nothing.
ghost use Rattle.pg_language.specs.Language.{language};
ghost use Rattle.pg_language.specs.Laws.{DefinitionsExtend, LogsFit, TranscriptsAreOne, WritesStayInOrder};
ghost use Rattle.pg_meaning.specs.OneAnswer.{has_one_answer};
ghost use Rattle.pg_script.specs.declared.script.Script.{Script};
ghost use Rattle.pg_rules.specs.Catalog.LookUps.{nothing};
ghost use Rattle.pg_script.specs.Exact.{IsExact};
ghost use Rattle.pg_script.specs.Fitting.{IsFitting};

use crate::statements::Statements;
use pg_lex::one_token_list;
use pg_meaning::answers_are_one;
use pg_rules::{resolved_expressions, sound_definitions};
use pg_session::{legal_logs_fit, stepped_runs_are_one};
use pg_sql::one_tree;

/// The law that the language of scripts is exact: a part of a text reads as one thing, a definition, a change and a query are
/// judged in one way, a change does one thing to the writes, and a query without ANY and ANY SHORTEST has one answer.
pub fn language_is_exact()
    ensures { (script : Script) → IsExact (language script) has_one_answer }
{
    one_token_list();
    one_tree();
    answers_are_one();
}

/// The law that a script none of whose queries has ANY or ANY SHORTEST has at most one transcript of a stepped run, and so one
/// text.
pub fn transcripts_are_one()
    ensures { TranscriptsAreOne }
{
    language_is_exact();
    stepped_runs_are_one::<Statements>();
}

/// The law that an accepted definition leaves the tables that there are at their places.
pub fn definitions_extend()
    ensures { DefinitionsExtend }
{}

/// The law that what a change leaves of writes in order of table and key, no place twice, is in order too.
pub fn writes_stay_in_order()
    ensures { WritesStayInOrder }
{}

/// The law that the language of scripts is fitting: over catalogs that accepted definitions lead to, a change leaves writes
/// that fit the shapes and stand in order.
pub fn language_is_fitting()
    ensures { (script : Script) → IsFitting (language script) nothing }
{
    sound_definitions();
    resolved_expressions();
}

/// The law that each commit of a legal transcript fits the shapes of its definitions, and that its writes stand in order of
/// table and key, no place twice.
pub fn logs_fit()
    ensures { LogsFit }
{
    language_is_fitting();
    legal_logs_fit::<Statements>();
}
