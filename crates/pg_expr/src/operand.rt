//! A value where it stands, or one of its own.
ghost use Rattle.std.specs.Prelude.{◌≡◌, IfOk};
ghost use Rattle.std.specs.Option.{option_copied, unwrap_or};
ghost use Rattle.pg_value.specs.declared.value.Value.TheVariants.{Null};
ghost use Rattle.pg_expr.specs.Operands.{seen};

use pg_value::{Value, copy_value};
use std::alloc::{AllocError, Global};

/// A value that an operator takes: borrowed from the expression or the row in which it stands, or a number, a truth value or
/// NULL that was made on the way. No text is copied for it.
#[derive(Drop)]
pub enum Operand<'a> {
    Borrowed(&'a Value),
    Made(Value),
}

impl<'a> Operand<'a> {
    /// A value that was found, NULL where none was.
    pub fn found(value: Option<&'a Value>) -> Operand<'a>
        ensures { seen result ≡ unwrap_or (option_copied value.entry) Null }
    {
        match value {
            Some(value) => Operand::Borrowed(value),
            None => Operand::Made(Value::Null),
        }
    }

    /// The value.
    pub fn get(&self) -> &Value
        ensures { result.now ≡ seen self.now }
    {
        match self {
            Operand::Borrowed(value) => value,
            Operand::Made(value) => value,
        }
    }

    /// The value, copied where it is borrowed. Only want of memory refuses it.
    pub fn into_value(self, alloc: Global) -> Result<Value, AllocError>
        ensures { IfOk result (λ value. value ≡ seen self.entry) }
    {
        match self {
            Operand::Borrowed(value) => copy_value(alloc, value),
            Operand::Made(value) => Ok(value),
        }
    }
}
