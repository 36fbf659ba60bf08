//! The summary of a transcript.
ghost use Rattle.std.specs.Prelude.{◌≡◌, ◌+◌, ◌++◌, IfOk, OnOk, length};
ghost use Rattle.std.specs.List.{sum_by};
ghost use Rattle.pg_script.specs.Text.{line};
ghost use Rattle.pg_script.specs.Generated as spec;

use crate::{Outcome, SectionOut, Transcript};
use pg_value::Text;
use std::alloc::{AllocError, Global};

/// A sum, or want of memory where it goes beyond 2^64 - 1, as no count of what stands in memory does.
fn sum(total: u64, more: u64) -> Result<u64, AllocError>
    ensures { IfOk result (λ sum. sum ≡ total + more) }
{
    match total.checked_add(more) {
        Some(sum) => Ok(sum),
        None => Err(AllocError),
    }
}

/// How many outcomes some sections have.
fn statements(sections: &[SectionOut]) -> Result<u64, AllocError>
    ensures { IfOk result (λ count. count ≡ sum_by spec.statement_count sections.now) }
{
    let mut total = 0;
    for section in sections {
        total = sum(total, section.outcomes.len() as u64)?;
    }
    Ok(total)
}

/// How many rows an outcome has.
fn row_count(outcome: &Outcome) -> u64
    ensures { result ≡ spec.row_count outcome.now }
{
    match outcome {
        Outcome::Rows { rows, .. } => rows.len() as u64,
        _ => 0,
    }
}

/// How many rows some outcomes have.
fn rows_of(outcomes: &[Outcome]) -> Result<u64, AllocError>
    ensures { IfOk result (λ count. count ≡ sum_by spec.row_count outcomes.now) }
{
    let mut total = 0;
    for outcome in outcomes {
        total = sum(total, row_count(outcome))?;
    }
    Ok(total)
}

/// How many rows the answers of some sections have.
fn rows(sections: &[SectionOut]) -> Result<u64, AllocError>
    ensures { IfOk result (λ count. count ≡ sum_by spec.rows_of_section sections.now) }
{
    let mut total = 0;
    for section in sections {
        total = sum(total, rows_of(section.outcomes.as_slice())?)?;
    }
    Ok(total)
}

/// The version and the base of an outcome, where it is an answer, or else those of the answer before.
fn later(before: Option<(u64, u64)>, outcome: &Outcome) -> Option<(u64, u64)>
    ensures { result ≡ spec.later before (spec.stands outcome.now) }
{
    match outcome {
        Outcome::Rows { at, base, .. } => Some((*at, *base)),
        _ => before,
    }
}

/// The version and the base of the last answer.
fn last_stand(outcomes: &[Outcome]) -> Option<(u64, u64)>
    ensures { result ≡ spec.last_stand outcomes.now }
{
    let mut last = None;
    for outcome in outcomes {
        last = later(last, outcome);
    }
    last
}

/// Appends a word, a number and a line feed.
fn push_count(out: &mut Text, word: &str, count: u64) -> Result<(), AllocError>
    ensures { OnOk result (out.new ≡ out.old ++ spec.count_line word.now count) }
{
    out.push_str(word)?;
    out.push_number(count)?;
    out.push_str("\n")
}

/// Appends the version and the base of an answer, where there is one.
fn push_stand(out: &mut Text, stand: Option<(u64, u64)>) -> Result<(), AllocError>
    ensures { OnOk result (out.new ≡ out.old ++ spec.stand_text stand) }
{
    match stand {
        Some((at, base)) => {
            out.push_str(" at ")?;
            out.push_number(at)?;
            out.push_str(" base ")?;
            out.push_number(base)
        }
        None => Ok(()),
    }
}

/// Those of the last answer of the last section.
fn last_stand_of(sections: &[SectionOut]) -> Option<(u64, u64)>
    ensures { result ≡ spec.last_stand (spec.last_section sections.now) }
{
    match sections.last() {
        Some(section) => last_stand(section.outcomes.as_slice()),
        None => None,
    }
}

/// Appends the line of the last answer of the last section.
fn push_last(out: &mut Text, sections: &[SectionOut]) -> Result<(), AllocError>
    ensures { OnOk result (out.new ≡ out.old ++ spec.last_line sections.now) }
{
    out.push_str("last")?;
    push_stand(out, last_stand_of(sections))?;
    out.push_str("\n")
}

/// The summary of a transcript, in five lines: how many outcomes it has, how many commits its log has, how many rows its
/// answers have, the version and the base of the last answer of its last section, where that has one, and `@end`. Only want
/// of memory refuses it.
pub fn summary(alloc: Global, transcript: &Transcript) -> Result<Text, AllocError>
    ensures { IfOk result (λ text. text ≡ spec.summary_text transcript.now) }
{
    let sections = transcript.sections.as_slice();
    let mut out = Text::new(alloc);
    push_count(&mut out, "statements ", statements(sections)?)?;
    push_count(&mut out, "commits ", transcript.log.len() as u64)?;
    push_count(&mut out, "rows ", rows(sections)?)?;
    push_last(&mut out, sections)?;
    out.push_str("@end\n")?;
    Ok(out)
}
