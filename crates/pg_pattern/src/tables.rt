//! A query within a list of tokens.
ghost use Rattle.std.specs.Prelude.{ℕ, List, ◌≡◌, ◌<◌, length, IfOk, IfErr};
ghost use Rattle.pg_lex.specs.declared.token.Token.{Token};
ghost use Rattle.pg_ast.specs.declared.pattern.Query.{Query};
ghost use Rattle.pg_ast.specs.Grammar.Queries.{QueryAt};
ghost use Rattle.pg_ast.specs.Words.Terminals.{IsEnded};
ghost use Rattle.pg_pattern.specs.Answers.{IsFault, AnswersOnly};

use crate::{ParseFault, query};
use pg_ast::Query;
use pg_grammar::{Cursor, Fault};
use pg_lex::Token;
use pg_value::List;
use std::alloc::Global;

/// Reads the query that stands in a list of tokens from token number `first` on, from 0, with its alias where AS or a
/// name follows its last `)`. The answer is its tree and the number of the token after it.
///
/// `Syntax` comes exactly where no query stands there: none, or one without an alias before AS. Its place is the first
/// byte of the first token, from `first` on, that no query continues. `Memory` comes where memory runs out, or the
/// number of the token after is no `u32`.
pub fn parse_graph_table(
    alloc: Global,
    tokens: &List<Token>,
    first: u32,
) -> Result<(Query, u32), ParseFault>
    requires ended { IsEnded tokens.now }
    requires within { first < length tokens.now }
    ensures found { IfOk result (λ x. QueryAt tokens.now first x.0 x.1) }
    ensures only { (q : Query) (after : ℕ) → QueryAt tokens.now first q after → AnswersOnly q after result }
    ensures fault { IfErr result (IsFault tokens.now first) }
{
    let tokens = tokens.as_slice();
    let mut cursor = Cursor::new(&tokens[first as usize..]);
    match query(alloc, &mut cursor) {
        Ok(query) => match u32::try_from(tokens.len() - cursor.len()) {
            Ok(after) => Ok((query, after)),
            Err(_) => Err(ParseFault::Memory),
        },
        Err(Fault::Memory) => Err(ParseFault::Memory),
        Err(Fault::Syntax) => Err(ParseFault::Syntax { at: cursor.place() }),
    }
}

/// The law that at most one query stands at a place of a list of tokens: two that stand there are equal, and so are the
/// places after them.
pub fn one_query()
    ensures { (tokens : List Token) (first : ℕ) (p q : Query) (m n : ℕ) → QueryAt tokens first p m → QueryAt tokens first q n → (p ≡ q) × (m ≡ n) }
{}
