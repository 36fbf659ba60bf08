//! The sections of an input, each with its statements or its words.
ghost use Rattle.std.specs.Prelude.{◌≡◌, ◌-◌, ◌≤◌, true, length, map, drop, IfOk};
ghost use Rattle.pg_lex.specs.Bytes.{starts_with};
ghost use Rattle.pg_script.specs.Script.{most_bytes};
ghost use Rattle.pg_script.specs.Statements.{HasStatements};
ghost use Rattle.pg_script.specs.Passes.{FormFits, IsContent, IsFree, IsPartSpan, HasPartSpans, statement_at, text_at};

use crate::header::{Form, header};
use crate::layout::block;
use crate::lines::between;
use crate::statements::{Span, statements};
use crate::turns::turns;
use pg_value::List;
use std::alloc::{AllocError, Global};

/// What a section has, by its line: the statements of its text, or the words of the order.
#[derive(Drop)]
pub enum Content {
    Setup(List<Span>),
    Session { name: Span, statements: List<Span> },
    Order(List<Span>),
    Other,
}

/// A section of the input: where its line begins, where the next one begins or the input ends, and what it has.
#[derive(Drop)]
pub struct PartSpan {
    pub at: u32,
    pub end: u32,
    pub content: Content,
}

/// The statements between two places.
fn statements_between(
    alloc: Global,
    bytes: &[u8],
    from: usize,
    to: usize,
) -> Result<List<Span>, AllocError>
    requires short { length bytes.now ≤ most_bytes }
    requires low { from ≤ to }
    requires high { to ≤ length bytes.now }
    ensures { IfOk result (λ spans. HasStatements from (text_at bytes.now from to) (map (statement_at bytes.now) spans)) }
{
    statements(alloc, between(bytes, from, to), from as u32)
}

/// What a section has whose line, of that form, begins at a place, and whose text stands between two others.
fn read_content(
    alloc: Global,
    bytes: &[u8],
    form: Form,
    at: usize,
    from: usize,
    to: usize,
) -> Result<Content, AllocError>
    requires short { length bytes.now ≤ most_bytes }
    requires begins { at ≤ from }
    requires low { from ≤ to }
    requires high { to ≤ length bytes.now }
    requires fits { FormFits (from - at) form }
    ensures { IfOk result (IsContent bytes.now at from to form) }
{
    match form {
        Form::Setup => Ok(Content::Setup(statements_between(alloc, bytes, from, to)?)),
        Form::Session { len } => {
            let name = Span {
                from: (at + 9) as u32,
                to: (at + 9 + len) as u32,
            };
            let statements = statements_between(alloc, bytes, from, to)?;
            Ok(Content::Session { name, statements })
        }
        Form::Order => Ok(Content::Order(turns(alloc, bytes, from, to)?)),
        Form::Other => Ok(Content::Other),
    }
}

/// The section whose line begins at a place.
fn read_part(alloc: Global, bytes: &[u8], at: usize) -> Result<PartSpan, AllocError>
    requires short { length bytes.now ≤ most_bytes }
    requires within { at ≤ length bytes.now }
    requires begins { starts_with 64 (drop at bytes.now) ≡ true }
    ensures { IfOk result (IsPartSpan bytes.now at) }
{
    let (_, left) = bytes.split_at(at);
    let block = block(left);
    let (line, _) = left.split_at(block.line);
    let form = header(line);
    let content = read_content(alloc, bytes, form, at, at + block.from, at + block.to)?;
    Ok(PartSpan {
        at: at as u32,
        end: (at + block.to) as u32,
        content,
    })
}

/// The sections of an input, of which so many bytes stand in front of the first section line.
///
/// An error is want of memory.
pub fn read(alloc: Global, bytes: &[u8], head: usize) -> Result<List<PartSpan>, AllocError>
    requires short { length bytes.now ≤ most_bytes }
    requires within { head ≤ length bytes.now }
    requires free { IsFree head bytes.now }
    ensures { IfOk result (HasPartSpans bytes.now head) }
{
    let mut out = List::new(alloc);
    let mut at = head;
    'parts: while at < bytes.len() {
        let part = read_part(alloc, bytes, at)?;
        at = part.end as usize;
        out.push(part)?;
    }
    Ok(out)
}
