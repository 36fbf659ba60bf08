//! What a statement of a script is read as.
use pg_ast::Statement;

/// What the tokens of a statement are.
#[derive(Drop)]
pub enum Parsed {
    /// This statement, and the place of its first token.
    Statement { tree: Statement, at: u32 },
    /// No statement, by the first token that no statement continues, at its place.
    Fault { at: u32 },
}
