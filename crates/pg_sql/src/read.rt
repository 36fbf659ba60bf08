//! Reads one statement of a script: its part of the text, the tokens of that, and what these are.
ghost use Rattle.std.specs.Prelude.{◌≡◌, ◌<◌, ◌^◌, length, IfOk};
ghost use Rattle.pg_ast.specs.Words.Terminals.{IsEnded};
ghost use Rattle.pg_lex.specs.Parts.{IsPartAt, part_of};
ghost use Rattle.pg_sql.specs.Parsed.{IsParsed, IsParsedOf, first_place};

use crate::{Parsed, parse_statement};
use pg_lex::{Token, lex};
use pg_pattern::ParseFault;
use pg_value::{List, Text};
use std::alloc::{AllocError, Global};

/// The part of a text from one place up to another, without copying.
fn part(text: &Text, from: u32, to: u32) -> &str
    requires { IsPartAt text.now from to }
    ensures { result.now ≡ part_of text.now from to }
{
    match std::str::from_utf8(&text.as_bytes()[from as usize..to as usize]) {
        Ok(part) => part,
        Err(_) => unreachable!(),
    }
}

/// The place of the first token.
fn first_place(tokens: &List<Token>) -> u32
    ensures { result ≡ first_place tokens.now }
{
    match tokens.as_slice() {
        [] => 0,
        [token, ..] => token.from,
    }
}

/// What the tokens of a statement are.
fn parsed(alloc: Global, tokens: &List<Token>) -> Result<Parsed, AllocError>
    requires { IsEnded tokens.now }
    ensures { IfOk result (IsParsed tokens.now) }
{
    match parse_statement(alloc, tokens) {
        Ok(tree) => Ok(Parsed::Statement {
            tree,
            at: first_place(tokens),
        }),
        Err(ParseFault::Syntax { at }) => Ok(Parsed::Fault { at }),
        Err(ParseFault::Memory) => Err(AllocError),
    }
}

/// The statement that the bytes of a text from one place up to another are, its `;` included, or the first token that no
/// statement continues. Only want of memory refuses it.
#[tactic(auto, using(crate::proofs::Lexed::lexed_ended))]
pub fn read_statement(alloc: Global, text: &Text, from: u32, to: u32) -> Result<Parsed, AllocError>
    requires length { length text.now < 2 ^ 32 }
    requires part { IsPartAt text.now from to }
    ensures { IfOk result (IsParsedOf text.now from to) }
{
    let tokens = lex(alloc, part(text, from, to), from)?;
    parsed(alloc, &tokens)
}
