//! The tokens that are still to be read.
ghost use Rattle.std.specs.Prelude.{◌≡◌, length};
ghost use Rattle.pg_lex.specs.declared.token.TokenKind.TheVariants.{End};
ghost use Rattle.pg_grammar.specs.Kit.Reading.{ReadsRef, ReadsBehind, Moves, sees, sees_if, sees_either, take_if, eat, place_of};
ghost use Rattle.pg_grammar.specs.Kit.Choices.{sees_two};
ghost use Rattle.pg_ast.specs.Words.Terminals.{Exactly, W, S, AName, ANumber, AText, matches};
ghost use Rattle.pg_ast.specs.Words.Terminals as spec;

use crate::Unexpected;
use pg_lex::{Token, TokenKind};
use std::marker::Model;

/// The tokens that are still to be read.
///
/// `sees_..` asks what the next token is. `word`, `symbol`, `name`, `number`, `text` and `end` read it where it is what
/// they ask for, and are else `Unexpected` and leave the cursor at it. `eat_..` move past what they ask for, where it comes.
/// A word is asked for in upper case.
#[derive(Drop)]
pub struct Cursor<'a> {
    left: &'a [Token],
}

impl<'a> Model for Cursor<'a> {
    ghost use Rattle.pg_ast.specs.Words.Terminals.{Tokens};

    ghost Value = { Tokens };

    ghost view = { λ c. c.left.now };
}

/// Whether the word is one of the reserved words from ALL to MATCH.
#[tactic(auto, unfolding(pg_ast::specs::Words::Terminals::is_among))]
fn is_reserved_all_to_match(word: &[u8]) -> bool
    ensures { result ≡ spec.is_among spec.reserved_all_to_match word.now }
{
    word == b"ALL".as_slice()
        || word == b"AND".as_slice()
        || word == b"ANY".as_slice()
        || word == b"AS".as_slice()
        || word == b"COUNT".as_slice()
        || word == b"CREATE".as_slice()
        || word == b"DELETE".as_slice()
        || word == b"FALSE".as_slice()
        || word == b"FROM".as_slice()
        || word == b"GRAPH_TABLE".as_slice()
        || word == b"INSERT".as_slice()
        || word == b"INTO".as_slice()
        || word == b"IS".as_slice()
        || word == b"MATCH".as_slice()
}

/// Whether the word is one of the reserved words from MAX to WHERE.
#[tactic(auto, unfolding(pg_ast::specs::Words::Terminals::is_among))]
fn is_reserved_max_to_where(word: &[u8]) -> bool
    ensures { result ≡ spec.is_among spec.reserved_max_to_where word.now }
{
    word == b"MAX".as_slice()
        || word == b"MIN".as_slice()
        || word == b"NOT".as_slice()
        || word == b"NULL".as_slice()
        || word == b"OR".as_slice()
        || word == b"PRIMARY".as_slice()
        || word == b"SELECT".as_slice()
        || word == b"SET".as_slice()
        || word == b"SUM".as_slice()
        || word == b"TABLE".as_slice()
        || word == b"TRUE".as_slice()
        || word == b"UPDATE".as_slice()
        || word == b"VALUES".as_slice()
        || word == b"WHERE".as_slice()
}

/// Whether the word is reserved, so that it is no name.
fn is_reserved(word: &[u8]) -> bool
    ensures { result ≡ spec.is_reserved word.now }
{
    is_reserved_all_to_match(word) || is_reserved_max_to_where(word)
}

impl<'a> Cursor<'a> {
    /// The cursor at the first of these tokens.
    pub fn new(left: &'a [Token]) -> Cursor<'a>
        ensures { result ≡ left.now }
    {
        Cursor { left }
    }

    /// How many tokens are left.
    pub fn len(&self) -> usize
        ensures { result ≡ length self.now }
    {
        self.left.len()
    }

    /// The place of the next token, or 0 where none is left.
    pub fn place(&self) -> u32
        ensures { result ≡ place_of self.now }
    {
        match self.left {
            [] => 0,
            [token, ..] => token.from,
        }
    }

    /// Whether this word comes.
    #[tactic(auto, unfolding(pg_ast::specs::Words::Terminals::matches))]
    pub fn sees_word(&self, word: &[u8]) -> bool
        ensures { result ≡ sees (W word.now) self.now }
    {
        match self.left {
            [] => false,
            [token, ..] => match &token.kind {
                TokenKind::Word(text) => text.as_bytes() == word,
                _ => false,
            },
        }
    }

    /// Whether one of these words comes.
    #[tactic(auto, unfolding(pg_ast::specs::Words::Terminals::matches))]
    pub fn sees_either_word(&self, a: &[u8], b: &[u8]) -> bool
        ensures { result ≡ sees_if (sees_either (W a.now) (W b.now)) self.now }
    {
        match self.left {
            [] => false,
            [token, ..] => match &token.kind {
                TokenKind::Word(text) => text.as_bytes() == a || text.as_bytes() == b,
                _ => false,
            },
        }
    }

    /// Whether this symbol comes.
    #[tactic(auto, unfolding(pg_ast::specs::Words::Terminals::matches))]
    pub fn sees_symbol(&self, symbol: &[u8]) -> bool
        ensures { result ≡ sees (S symbol.now) self.now }
    {
        match self.left {
            [] => false,
            [token, ..] => match &token.kind {
                TokenKind::Symbol(text) => text.as_bytes() == symbol,
                _ => false,
            },
        }
    }

    /// Whether one of these symbols comes.
    #[tactic(auto, unfolding(pg_ast::specs::Words::Terminals::matches))]
    pub fn sees_either_symbol(&self, a: &[u8], b: &[u8]) -> bool
        ensures { result ≡ sees_if (sees_either (S a.now) (S b.now)) self.now }
    {
        match self.left {
            [] => false,
            [token, ..] => match &token.kind {
                TokenKind::Symbol(text) => text.as_bytes() == a || text.as_bytes() == b,
                _ => false,
            },
        }
    }

    /// Whether a name comes: a delimited identifier, or a regular one that is not reserved, of at most 128 bytes.
    #[tactic(auto, unfolding(pg_ast::specs::Words::Terminals::matches))]
    pub fn sees_name(&self) -> bool
        ensures { result ≡ sees AName self.now }
    {
        match self.left {
            [] => false,
            [token, ..] => match &token.kind {
                TokenKind::Word(text) => !is_reserved(text.as_bytes()) && text.len() <= 128,
                TokenKind::Quoted(text) => text.len() <= 128,
                _ => false,
            },
        }
    }

    /// Whether a name comes and then this symbol.
    pub fn sees_name_then(&self, symbol: &[u8]) -> bool
        ensures { result ≡ sees_two (matches AName) (matches (S symbol.now)) self.now }
    {
        match self.left {
            [] => false,
            [_, rest @ ..] => self.sees_name() && Cursor::new(rest).sees_symbol(symbol),
        }
    }

    /// Whether a number comes.
    #[tactic(auto, unfolding(pg_ast::specs::Words::Terminals::matches))]
    pub fn sees_number(&self) -> bool
        ensures { result ≡ sees ANumber self.now }
    {
        match self.left {
            [] => false,
            [token, ..] => match &token.kind {
                TokenKind::Number(_) => true,
                _ => false,
            },
        }
    }

    /// Whether a text comes.
    #[tactic(auto, unfolding(pg_ast::specs::Words::Terminals::matches))]
    pub fn sees_text(&self) -> bool
        ensures { result ≡ sees AText self.now }
    {
        match self.left {
            [] => false,
            [token, ..] => match &token.kind {
                TokenKind::Literal(_) => true,
                _ => false,
            },
        }
    }

    /// Whether the end of the text comes.
    #[tactic(auto, unfolding(pg_ast::specs::Words::Terminals::matches))]
    pub fn sees_end(&self) -> bool
        ensures { result ≡ sees (Exactly End) self.now }
    {
        match self.left {
            [] => false,
            [token, ..] => match &token.kind {
                TokenKind::End => true,
                _ => false,
            },
        }
    }

    /// The next token, where it is wanted.
    fn take(&mut self, wanted: bool) -> Result<&'a Token, Unexpected>
        ensures { ReadsRef (take_if wanted self.old) result self.new }
    {
        if !wanted {
            return Err(Unexpected);
        }
        match self.left {
            [] => Err(Unexpected),
            [token, rest @ ..] => {
                self.left = rest;
                Ok(token)
            }
        }
    }

    /// Reads this word.
    pub fn word(&mut self, word: &[u8]) -> Result<&'a Token, Unexpected>
        ensures { ReadsRef (eat (W word.now) self.old) result self.new }
    {
        let wanted = self.sees_word(word);
        self.take(wanted)
    }

    /// Reads this symbol.
    pub fn symbol(&mut self, symbol: &[u8]) -> Result<&'a Token, Unexpected>
        ensures { ReadsRef (eat (S symbol.now) self.old) result self.new }
    {
        let wanted = self.sees_symbol(symbol);
        self.take(wanted)
    }

    /// Reads a name.
    pub fn name(&mut self) -> Result<&'a Token, Unexpected>
        ensures { ReadsRef (eat AName self.old) result self.new }
    {
        let wanted = self.sees_name();
        self.take(wanted)
    }

    /// Reads a number.
    pub fn number(&mut self) -> Result<&'a Token, Unexpected>
        ensures { ReadsRef (eat ANumber self.old) result self.new }
    {
        let wanted = self.sees_number();
        self.take(wanted)
    }

    /// Reads a text.
    pub fn text(&mut self) -> Result<&'a Token, Unexpected>
        ensures { ReadsRef (eat AText self.old) result self.new }
    {
        let wanted = self.sees_text();
        self.take(wanted)
    }

    /// Reads the end of the text.
    pub fn end(&mut self) -> Result<&'a Token, Unexpected>
        ensures { ReadsRef (eat (Exactly End) self.old) result self.new }
    {
        let wanted = self.sees_end();
        self.take(wanted)
    }

    /// Moves past this word where it comes, and says whether it came.
    pub fn eat_word(&mut self, word: &[u8]) -> bool
        ensures came { result ≡ sees (W word.now) self.old }
        ensures moved { Moves self.old result self.new }
    {
        match self.left {
            [] => false,
            [_, rest @ ..] => {
                if self.sees_word(word) {
                    self.left = rest;
                    return true;
                }
                false
            }
        }
    }

    /// Moves past this symbol where it comes, and says whether it came.
    pub fn eat_symbol(&mut self, symbol: &[u8]) -> bool
        ensures came { result ≡ sees (S symbol.now) self.old }
        ensures moved { Moves self.old result self.new }
    {
        match self.left {
            [] => false,
            [_, rest @ ..] => {
                if self.sees_symbol(symbol) {
                    self.left = rest;
                    return true;
                }
                false
            }
        }
    }

    /// What was read, where this symbol comes behind it.
    pub fn closed<T: Drop>(&mut self, symbol: &[u8], read: T) -> Result<T, Unexpected>
        ensures { ReadsBehind read (eat (S symbol.now) self.old) result self.old self.new }
    {
        if self.eat_symbol(symbol) {
            return Ok(read);
        }
        Err(Unexpected)
    }
}
