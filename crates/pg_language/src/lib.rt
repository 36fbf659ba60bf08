//! The language of a script: what each of its statements says, how definitions, changes and queries are judged, and what they
//! do and answer. It is a value of `pg_script`'s `Judges`, and so the parameter of the legal transcripts of `pg_script`. Here
//! too are the laws of this language.
#![tactic(auto)]

mod laws;
mod statements;

pub use laws::{
    definitions_extend, language_is_exact, language_is_fitting, logs_fit, transcripts_are_one,
    writes_stay_in_order,
};
pub use statements::Statements;
