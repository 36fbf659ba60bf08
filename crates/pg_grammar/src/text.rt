//! The text of a token.
ghost use Rattle.std.specs.Prelude.{◌≡◌, IfOk};
ghost use Rattle.pg_ast.specs.Words.Terminals.{text_of};

use pg_lex::{Token, TokenKind};
use pg_value::Text;
use std::alloc::{AllocError, Global};

/// A copy of a token's text, which is empty at End and Bad.
pub(crate) fn copy_text(alloc: Global, token: &Token) -> Result<Text, AllocError>
    ensures { IfOk result (λ text. text ≡ text_of token.now) }
{
    match &token.kind {
        TokenKind::Word(text) => text.copy(alloc),
        TokenKind::Quoted(text) => text.copy(alloc),
        TokenKind::Number(text) => text.copy(alloc),
        TokenKind::Literal(text) => text.copy(alloc),
        TokenKind::Symbol(text) => text.copy(alloc),
        TokenKind::End => Ok(Text::new(alloc)),
        TokenKind::Bad => Ok(Text::new(alloc)),
    }
}

/// The bytes of a token's text, none for End and Bad.
pub fn bytes_of(token: &Token) -> &[u8]
    ensures { result.now ≡ text_of token.now }
{
    match &token.kind {
        TokenKind::Word(text) => text.as_bytes(),
        TokenKind::Quoted(text) => text.as_bytes(),
        TokenKind::Number(text) => text.as_bytes(),
        TokenKind::Literal(text) => text.as_bytes(),
        TokenKind::Symbol(text) => text.as_bytes(),
        TokenKind::End => &[],
        TokenKind::Bad => &[],
    }
}
