//! The script of an input, or its first fault.
ghost use Rattle.std.specs.Prelude.{◌≡◌, ◌≤◌, [], length, IfOk, IfErr, MatchOption, MatchResult};
ghost use Rattle.pg_lex.specs.Tokens.{Gap};
ghost use Rattle.pg_script.specs.Script.{most_bytes, IsScript, IsNoScript};
ghost use Rattle.pg_script.specs.Passes.{HasPartSpans};
ghost use Rattle.pg_script.specs.Passes.Drafts.{IsEarly, IsSplit, SplitFault, IsMade};

use crate::draft::{Draft, make_draft};
use crate::layout::next_section;
use crate::lines::bad;
use crate::parts::{PartSpan, read};
use crate::{Script, ScriptFault, ScriptKind, Section};
use pg_lex::gap_len;
use pg_value::Text;
use std::alloc::{AllocError, Global};
use std::str;

/// A script has at most so many bytes.
const MOST_BYTES: usize = 16_777_216;

/// Where more than white space and comments stands, if it does.
fn early(head: &[u8]) -> Option<usize>
    ensures { MatchOption result (Gap head.now []) (IsEarly head.now) }
{
    let len = gap_len(head);
    if len == head.len() {
        return None;
    }
    Some(len)
}

/// What the sections of an input make, of which so many bytes stand in front of the first, or the first fault.
fn judged(
    alloc: Global,
    bytes: &[u8],
    head: usize,
    parts: &[PartSpan],
) -> Result<Draft, ScriptFault>
    requires short { length bytes.now ≤ most_bytes }
    requires read { HasPartSpans bytes.now head parts.now }
    ensures { MatchResult result (IsSplit bytes.now) (SplitFault bytes.now) }
{
    let (front, _) = bytes.split_at(head);
    match early(front) {
        Some(place) => Err(bad(bytes, place, ScriptKind::Section)),
        None => make_draft(alloc, bytes, parts),
    }
}

/// What the sections of an input make, or the first fault of the input.
fn sections(alloc: Global, bytes: &[u8]) -> Result<Draft, ScriptFault>
    requires { length bytes.now ≤ most_bytes }
    ensures { MatchResult result (IsSplit bytes.now) (SplitFault bytes.now) }
{
    let head = next_section(bytes);
    let parts = read(alloc, bytes, head)?;
    judged(alloc, bytes, head, parts.as_slice())
}

/// The script of a text and of what its sections make.
fn finish(alloc: Global, text: &str, draft: Draft) -> Result<Script, AllocError>
    ensures { IfOk result (IsMade text.now draft) }
{
    let Draft {
        has_setup,
        has_order: _,
        setup,
        mut sessions,
        order,
    } = draft;
    let name = Text::from_str(alloc, "setup")?;
    sessions.insert(0, Section { name, items: setup })?;
    let text = Text::from_str(alloc, text)?;
    Ok(Script {
        text,
        has_setup,
        sections: sessions,
        order,
    })
}

/// The script of a text, or its first fault.
fn split_text(alloc: Global, text: &str, bytes: &[u8]) -> Result<Script, ScriptFault>
    requires same { bytes.now ≡ text.now }
    requires short { length bytes.now ≤ most_bytes }
    ensures { MatchResult result (IsScript bytes.now) (IsNoScript bytes.now) }
{
    match sections(alloc, bytes) {
        Ok(draft) => Ok(finish(alloc, text, draft)?),
        Err(fault) => Err(fault),
    }
}

/// The script that the bytes of an input are.
///
/// A line that begins with `@` is a section line wherever it stands, also inside a text literal: `@setup`, which stands
/// first if at all, `@session NAME` with a name of its own, of a lower-case letter and at most 31 lower-case letters,
/// digits and `_` behind it that is not `setup`, and `@order`, which stands last if at all. White space may stand behind
/// each. The text of the setup and of a session is cut into statements at each `;` outside of quotes and comments; the
/// text of the order is names of sessions. `AFTER name n;` waits for an earlier session.
///
/// An error is a fault, by `ScriptKind`, with its line, or want of memory.
pub fn split(alloc: Global, input: &[u8]) -> Result<Script, ScriptFault>
    ensures script { IfOk result (IsScript input.now) }
    ensures fault { IfErr result (IsNoScript input.now) }
{
    if input.len() > MOST_BYTES {
        return Err(ScriptFault::Bad {
            line: 0,
            kind: ScriptKind::TooLong,
        });
    }
    match str::from_utf8(input) {
        Ok(text) => split_text(alloc, text, input),
        Err(error) => Err(bad(input, error.valid_up_to(), ScriptKind::NotText)),
    }
}
