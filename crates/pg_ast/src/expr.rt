//! Names and expressions as they are written.
//!
//! In every tree `at` is a place in the input, in bytes from 0.
use pg_value::{Text, Value};
use sqlite_items::Boxed;

/// A name, and the place of its first byte. Its text is folded to upper case, or exact where it was written in `"`.
#[derive(Drop)]
pub struct Name {
    pub text: Text,
    pub at: u32,
}

/// An operator before or behind one operand: `-`, NOT, IS NULL, IS NOT NULL.
#[derive(Clone, Copy)]
pub enum UnOp {
    Minus,
    Not,
    IsNull,
    IsNotNull,
}

/// An operator between two operands: OR, AND, `=`, `<>`, `<`, `<=`, `>`, `>=`, `+`, `-`, `*`.
#[derive(Clone, Copy)]
pub enum BinOp {
    Or,
    And,
    Eq,
    Ne,
    Lt,
    Le,
    Gt,
    Ge,
    Plus,
    Minus,
    Times,
}

/// An aggregate function over the elements of a group variable.
#[derive(Clone, Copy)]
pub enum Agg {
    Count,
    Sum,
    Min,
    Max,
}

/// An expression as it is written (ISO/IEC 9075-2:2023, value expression). `at` is the place of the literal, of the
/// operator's own word or symbol, which is IS for the two tests of NULL, or of the aggregate's word.
#[derive(Drop)]
pub enum Expr {
    /// A number, a text, TRUE, FALSE or NULL. `bits` is a number's count of binary digits, and 0 for other literals.
    Lit {
        value: Value,
        bits: u32,
        at: u32,
    },
    /// A number that no value holds.
    TooWide {
        at: u32,
    },
    /// A column of the table that is changed.
    Column {
        name: Name,
    },
    /// A property of the element that a variable stands for.
    Property {
        var: Name,
        name: Name,
    },
    Unary {
        op: UnOp,
        arg: Boxed<Expr>,
        at: u32,
    },
    Binary {
        op: BinOp,
        left: Boxed<Expr>,
        right: Boxed<Expr>,
        at: u32,
    },
    Agg {
        agg: Agg,
        arg: Boxed<Expr>,
        at: u32,
    },
    /// COUNT of a variable's elements.
    CountVar {
        var: Name,
        at: u32,
    },
}

/// An expression that stands in no other, and the place of its first token, a `(` included.
#[derive(Drop)]
pub struct Whole {
    pub expr: Expr,
    pub at: u32,
}
