//! What the references of an expression stand for.
ghost use Rattle.std.specs.Prelude.{◌≡◌};
ghost use Rattle.std.specs.Option.{option_copied, unwrap_or};
ghost use Rattle.pg_value.specs.declared.value.Value.TheVariants.{Null};
ghost use Rattle.pg_meaning.specs.Meaning.{Scope, column_of, property_of, elems_of};
ghost use Rattle.pg_expr.specs.Operands.{seen};
ghost use Rattle.pg_expr.specs.References.{property_at, chosen_in, MayChoose};

use crate::operand::Operand;
use pg_chunks::Steps;
use pg_value::{ElemId, Value};
use std::marker::Brand;
use std::slice;
use std::sync::ledger::{Blank, Ledger};

/// What columns, properties and variables stand for: in a row, or in the tables of a view.
pub trait References {
    /// What the expression is judged over.
    ghost scope: { Self → Scope };

    /// The value in the column of a place, where there is one.
    fn column(&self, place: u32) -> Option<&Value>
        ensures { unwrap_or (option_copied result) Null ≡ column_of (scope self.now) place };

    /// The property of an element, where it has one. Reading it is counted.
    fn property<L: Ledger>(
        &self,
        elem: &ElemId,
        columns: &[Option<u32>],
        steps: &mut Steps<L>,
    ) -> Option<&Value>
        ensures { unwrap_or (option_copied result) Null ≡ property_at (scope self.now) elem.now columns.now };

    /// The elements that a variable stands for.
    fn elements(&self, var: u32) -> &[ElemId]
        ensures { result.now ≡ elems_of (scope self.now) var };
}

/// The element of a group variable for which the argument of an aggregate is evaluated.
#[derive(Clone, Copy)]
pub struct Chosen<'a> {
    pub var: u32,
    pub elem: &'a ElemId,
}

/// The elements that a variable stands for, where one may be chosen.
pub fn elements<'a, R: References>(
    references: &'a R,
    chosen: Option<Chosen<'a>>,
    var: u32,
) -> &'a [ElemId]
    requires { MayChoose chosen (R.scope references.now) }
    ensures { result.now ≡ elems_of (chosen_in chosen.entry (R.scope references.now)) var }
{
    match chosen {
        Some(Chosen { var: own, elem }) if own == var => slice::from_ref(elem),
        _ => references.elements(var),
    }
}

/// The property of an element, read by a counter of its own.
fn property_counted<'a, R: References, L: Ledger>(
    blank: Blank,
    references: &'a R,
    elem: &ElemId,
    columns: &[Option<u32>],
) -> Option<&'a Value>
    requires name { blank.name ≡ L.name }
    requires parts { blank.parts ≡ L.parts }
    requires one { blank.parts ≡ 1 }
    ensures { unwrap_or (option_copied result) Null ≡ property_at (R.scope references.now) elem.now columns.now }
{
    let mut steps = Steps::<L>::start(blank);
    references.property(elem, columns, &mut steps)
}

/// The property of an element, where it has one.
fn property_of<'a, R: References>(
    references: &'a R,
    elem: &ElemId,
    columns: &[Option<u32>],
) -> Option<&'a Value>
    ensures { unwrap_or (option_copied result) Null ≡ property_at (R.scope references.now) elem.now columns.now }
{
    property_counted::<R, Brand>(Blank::new(1), references, elem, columns)
}

/// The property of the first element that a variable stands for, NULL where there is none.
pub fn property<'a, R: References>(
    references: &'a R,
    chosen: Option<Chosen<'a>>,
    var: u32,
    columns: &[Option<u32>],
) -> Operand<'a>
    requires { MayChoose chosen (R.scope references.now) }
    ensures { seen result ≡ property_of (chosen_in chosen.entry (R.scope references.now)) var columns.now }
{
    match elements(references, chosen, var) {
        [elem, ..] => Operand::found(property_of(references, elem, columns)),
        [] => Operand::Made(Value::Null),
    }
}
