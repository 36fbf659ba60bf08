//! The items of a section: its statements, and what an AFTER among them waits for.
ghost use Rattle.std.specs.Prelude.{◌≡◌, ◌≤◌, length, map, IfOk, IfErr, OnOk, MatchOption};
ghost use Rattle.std.specs.List.{AllZip};
ghost use Rattle.pg_script.specs.Script.{most_bytes};
ghost use Rattle.pg_script.specs.Passes.{part_of, parts_of, statement_at};
ghost use Rattle.pg_script.specs.Passes.Drafts as drafts;
ghost use Rattle.pg_script.specs.Passes.Drafts.{find_session, session_match, IsWaitItem, RiseSomewhere, IsBadAfter, IsGoodItem, IsFair, FaultOf, HasBadAfter, HasBadStatement};

use crate::after::{Wait, awaited, begins_after};
use crate::lines::{bad, cut, line_at};
use crate::parts::{Content, PartSpan};
use crate::statements::Span;
use crate::{Item, ScriptFault, ScriptKind};
use pg_value::List;
use std::alloc::Global;

/// A section has at most so many statements.
const MOST_STATEMENTS: usize = 100_000;

/// Whether a section is a session, and whether it has this name and so many statements.
fn matches_session(bytes: &[u8], part: &PartSpan, name: &[u8], least: usize) -> Option<bool>
    ensures { result ≡ session_match name.now least (part_of bytes.now part.now) }
{
    match &part.content {
        Content::Session {
            name: other,
            statements,
        } => Some(name == cut(bytes, *other) && least <= statements.len()),
        _ => None,
    }
}

/// The number, from 1, of the first session that has this name and so many statements.
pub fn session_of(bytes: &[u8], before: &[PartSpan], name: &[u8], least: usize) -> Option<usize>
    ensures { result ≡ find_session name.now least 1 (parts_of bytes.now before.now) }
{
    let mut number = 1;
    'sessions: for part in before {
        match matches_session(bytes, part, name, least) {
            Some(true) => return Some(number),
            Some(false) => number += 1,
            None => {}
        }
    }
    None
}

/// The item that waits so, if an earlier session has the name and so many statements.
fn wait_item(bytes: &[u8], before: &[PartSpan], wait: Wait<'_>) -> Option<Item>
    requires { IsFair (parts_of bytes.now before.now) }
    ensures { IsWaitItem (parts_of bytes.now before.now) wait.entry.name.now wait.entry.number result }
{
    if wait.number == 0 {
        return None;
    }
    let section = session_of(bytes, before, wait.name, wait.number as usize)?;
    Some(Item::After {
        section: section as u32,
        n: wait.number,
    })
}

/// The item of a statement, or None where it is an AFTER that may not stand there.
fn item(bytes: &[u8], before: &[PartSpan], in_session: bool, span: Span) -> Option<Item>
    requires { IsFair (parts_of bytes.now before.now) }
    ensures { MatchOption result (IsBadAfter (parts_of bytes.now before.now) in_session (statement_at bytes.now span)) (IsGoodItem (parts_of bytes.now before.now) in_session (statement_at bytes.now span)) }
{
    let statement = cut(bytes, span);
    if !begins_after(statement) {
        return Some(Item::Sql {
            from: span.from,
            to: span.to,
        });
    }
    if !in_session {
        return None;
    }
    let wait = awaited(statement)?;
    wait_item(bytes, before, wait)
}

/// The items of statements, or the first AFTER among them that may not stand there.
fn each_item(
    alloc: Global,
    bytes: &[u8],
    before: &[PartSpan],
    in_session: bool,
    spans: &[Span],
) -> Result<List<Item>, ScriptFault>
    requires short { length bytes.now ≤ most_bytes }
    requires fair { IsFair (parts_of bytes.now before.now) }
    requires rise { RiseSomewhere (map (statement_at bytes.now) spans.now) }
    ensures ok { IfOk result (AllZip (IsGoodItem (parts_of bytes.now before.now) in_session) (map (statement_at bytes.now) spans.now)) }
    ensures err { IfErr result (FaultOf (HasBadAfter bytes.now (parts_of bytes.now before.now) in_session (map (statement_at bytes.now) spans.now))) }
{
    let mut out = List::new(alloc);
    'statements: for span in spans {
        match item(bytes, before, in_session, *span) {
            Some(item) => match out.push(item) {
                Ok(()) => {}
                Err(_) => return Err(ScriptFault::Memory),
            },
            None => return Err(bad(bytes, span.from as usize, ScriptKind::AfterName)),
        }
    }
    Ok(out)
}

/// The fault, or the 100,001st statement where that is on the line `limit` and the fault is on no earlier one.
fn earlier(fault: ScriptFault, limit: u32) -> ScriptFault
    ensures { result ≡ drafts.earlier fault limit }
{
    match fault {
        ScriptFault::Memory => ScriptFault::Memory,
        ScriptFault::Bad { line, kind } => {
            if line < limit {
                ScriptFault::Bad { line, kind }
            } else {
                ScriptFault::Bad {
                    line: limit,
                    kind: ScriptKind::Statements,
                }
            }
        }
    }
}

/// The items of a section's statements, or their first fault.
pub fn items(
    alloc: Global,
    bytes: &[u8],
    before: &[PartSpan],
    in_session: bool,
    spans: &[Span],
) -> Result<List<Item>, ScriptFault>
    requires short { length bytes.now ≤ most_bytes }
    requires fair { IsFair (parts_of bytes.now before.now) }
    requires rise { RiseSomewhere (map (statement_at bytes.now) spans.now) }
    ensures ok { IfOk result (AllZip (IsGoodItem (parts_of bytes.now before.now) in_session) (map (statement_at bytes.now) spans.now)) }
    ensures few { OnOk result (length spans.now ≤ 100000) }
    ensures err { IfErr result (FaultOf (HasBadStatement bytes.now (parts_of bytes.now before.now) in_session (map (statement_at bytes.now) spans.now))) }
{
    let made = each_item(alloc, bytes, before, in_session, spans);
    if spans.len() <= MOST_STATEMENTS {
        return made;
    }
    let limit = line_at(bytes, spans[MOST_STATEMENTS].from as usize);
    match made {
        Ok(_) => Err(ScriptFault::Bad {
            line: limit,
            kind: ScriptKind::Statements,
        }),
        Err(fault) => Err(earlier(fault, limit)),
    }
}
