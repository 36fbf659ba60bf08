//! Expressions that no statement evaluates yet: operators on literals, columns, and aggregates over nothing.
ghost use Rattle.std.specs.Prelude.{◌≡◌, ◌≤◌, ◌<◌, ◌^◌, true, unsigned_abs, IsTrue, IfOk, [], ◌∷◌};
ghost use Rattle.pg_meaning.specs.declared.checked.CExpr.TheVariants as exprs;
ghost use Rattle.pg_meaning.specs.declared.checked.Slot.TheVariants.{Many};
ghost use Rattle.pg_meaning.specs.Sound.Kinds.{literal_width};
ghost use Rattle.pg_meaning.specs.Typing.{value_kind, binary_takes};
ghost use Rattle.pg_expr.specs.Operands as operands;

use pg_ast::{Agg, BinOp};
use pg_chunks::Steps;
use pg_expr::{eval, eval_row, truth, truth_row};
use pg_meaning::{Bound, CExpr, Slot};
use pg_value::{
    Dir, EdgeNo, ElemId, GraphShape, Key, List, Row, Shapes, TableNo, TableSet, Text, Truth, Value,
    print_value,
};
use pg_view::{Neighbour, View};
use sqlite_items::Boxed;
use std::alloc::{AllocError, Global};
use std::marker::Model;
use std::sync::ledger::Ledger;
use std::test::Fail;

/// The least number of 64 binary digits.
const LONG: u128 = 9223372036854775808;

/// Whether an operator takes the kinds of two values.
fn takes(op: BinOp, left: &Value, right: &Value) -> bool
    ensures { result ≡ binary_takes op (value_kind left.now) (value_kind right.now) }
{
    match (left, right) {
        (Value::Null, Value::Null) => true,
        (Value::Int(_) | Value::Null, Value::Int(_) | Value::Null) => {
            !matches!(op, BinOp::Or | BinOp::And)
        }
        (Value::Bool(_) | Value::Null, Value::Bool(_) | Value::Null) => {
            !matches!(op, BinOp::Plus | BinOp::Minus | BinOp::Times)
        }
        (Value::Text(_) | Value::Null, Value::Text(_) | Value::Null) => !matches!(
            op,
            BinOp::Or | BinOp::And | BinOp::Plus | BinOp::Minus | BinOp::Times
        ),
        _ => false,
    }
}

/// The number that a value is, if it is one.
fn number_in(value: &Value) -> Option<i128>
    ensures { result ≡ operands.number_in value.now }
{
    match value {
        Value::Int(n) => Some(n.get()),
        _ => None,
    }
}

/// Whether a number has at most 63 binary digits.
fn is_short_number(n: i128) -> bool
    ensures { IsTrue result → unsigned_abs n < 2 ^ 63 }
{
    n.unsigned_abs() < LONG
}

/// Whether a value is no number of more than 63 binary digits.
fn is_short(value: &Value) -> bool
    ensures { IsTrue result → literal_width value.now ≤ 63 }
{
    match number_in(value) {
        Some(n) => is_short_number(n),
        None => true,
    }
}

/// An operator between two literals.
fn pair(alloc: Global, op: BinOp, left: Value, right: Value) -> Result<CExpr, AllocError>
    ensures { IfOk result (λ e. e ≡ exprs.Binary op (exprs.Lit left) (exprs.Lit right)) }
{
    let left = Boxed::new(alloc, CExpr::Lit(left))?;
    let right = Boxed::new(alloc, CExpr::Lit(right))?;
    Ok(CExpr::Binary { op, left, right })
}

/// The value and the truth of an operator between two literals, over a row without columns.
fn evaluated(
    alloc: Global,
    op: BinOp,
    left: Value,
    right: Value,
) -> Result<(Value, Truth), AllocError>
    requires kinds { binary_takes op (value_kind left) (value_kind right) ≡ true }
    requires short_left { literal_width left ≤ 63 }
    requires short_right { literal_width right ≤ 63 }
{
    let row = Row::new(alloc, List::new(alloc))?;
    let expr = pair(alloc, op, left, right)?;
    let truth = truth_row(&expr, &row);
    let value = eval_row(alloc, &expr, &row)?;
    Ok((value, truth))
}

/// Whether a truth is that of a value.
fn is_truth_of(truth: Truth, value: &Value) -> bool {
    match value {
        Value::Bool(true) => truth == Truth::True,
        Value::Bool(false) => truth == Truth::False,
        _ => truth == Truth::Unknown,
    }
}

/// TRUE, FALSE and NULL for AND and OR, and 2, 3 and NULL for the others.
fn operand(op: BinOp, place: usize) -> Value {
    match (matches!(op, BinOp::Or | BinOp::And), place) {
        (true, 0) => Value::Bool(true),
        (true, 1) => Value::Bool(false),
        (false, 0) => Value::int(2),
        (false, 1) => Value::int(3),
        _ => Value::Null,
    }
}

/// What each operator gives of the first operand and each of the three, then of the second, then of NULL.
const OPERATORS: &[(BinOp, &str)] = &[
    (
        BinOp::And,
        "TRUE FALSE NULL FALSE FALSE FALSE NULL FALSE NULL ",
    ),
    (BinOp::Or, "TRUE TRUE TRUE TRUE FALSE NULL TRUE NULL NULL "),
    (BinOp::Eq, "TRUE FALSE NULL FALSE TRUE NULL NULL NULL NULL "),
    (BinOp::Ne, "FALSE TRUE NULL TRUE FALSE NULL NULL NULL NULL "),
    (
        BinOp::Lt,
        "FALSE TRUE NULL FALSE FALSE NULL NULL NULL NULL ",
    ),
    (BinOp::Le, "TRUE TRUE NULL FALSE TRUE NULL NULL NULL NULL "),
    (
        BinOp::Gt,
        "FALSE FALSE NULL TRUE FALSE NULL NULL NULL NULL ",
    ),
    (BinOp::Ge, "TRUE FALSE NULL TRUE TRUE NULL NULL NULL NULL "),
    (BinOp::Plus, "4 5 NULL 5 6 NULL NULL NULL NULL "),
    (BinOp::Minus, "0 -1 NULL 1 0 NULL NULL NULL NULL "),
    (BinOp::Times, "4 6 NULL 6 9 NULL NULL NULL NULL "),
];

#[test]
fn operators_have_their_values(rt: HostRuntime) -> Result<(), Fail> {
    let alloc = rt.alloc();
    for (op, want) in OPERATORS {
        let mut out = Text::new(alloc);
        for place in 0..9 {
            let left = operand(*op, place / 3);
            let right = operand(*op, place % 3);
            assert!(rt; takes(*op, &left, &right) && is_short(&left) && is_short(&right));
            let (value, truth) = evaluated(alloc, *op, left, right)?;
            assert!(rt; is_truth_of(truth, &value));
            print_value(&value, &mut out)?;
            out.push_ascii(b' ')?;
        }
        assert_eq!(rt; out.as_str(), *want);
    }
    Ok(())
}

/// Numbers at the ends of what widths allow.
const LONG_NUMBERS: &[(BinOp, i128, i128, &str)] = &[
    (
        BinOp::Times,
        9223372036854775807,
        9223372036854775807,
        "85070591730234615847396907784232501249",
    ),
    (
        BinOp::Times,
        9223372036854775807,
        -9223372036854775807,
        "-85070591730234615847396907784232501249",
    ),
    (
        BinOp::Plus,
        9223372036854775807,
        9223372036854775807,
        "18446744073709551614",
    ),
    (
        BinOp::Minus,
        -9223372036854775807,
        9223372036854775807,
        "-18446744073709551614",
    ),
];

#[test]
fn long_numbers_are_exact(rt: HostRuntime) -> Result<(), Fail> {
    let alloc = rt.alloc();
    for (op, left, right, want) in LONG_NUMBERS {
        let (left, right) = (Value::int(*left), Value::int(*right));
        assert!(rt; takes(*op, &left, &right) && is_short(&left) && is_short(&right));
        let (value, _) = evaluated(alloc, *op, left, right)?;
        let mut out = Text::new(alloc);
        print_value(&value, &mut out)?;
        assert_eq!(rt; out.as_str(), *want);
    }
    Ok(())
}

/// The value of the first column of a row of one text.
fn column_value(alloc: Global, text: Text) -> Result<Value, AllocError> {
    let mut values = List::new(alloc);
    values.push(Value::Text(text))?;
    let row = Row::new(alloc, values)?;
    eval_row(alloc, &CExpr::Column(0), &row)
}

#[test]
fn a_column_is_copied(rt: HostRuntime) -> Result<(), Fail> {
    let alloc = rt.alloc();
    let value = column_value(alloc, Text::from_str(alloc, "it's")?)?;
    let mut out = Text::new(alloc);
    print_value(&value, &mut out)?;
    assert_eq!(rt; out.as_str(), "'it''s'");
    Ok(())
}

/// A view without tables.
#[derive(Drop)]
struct NoTables {
    shapes: Shapes,
}

impl Model for NoTables {
    ghost use Rattle.std.specs.Prelude.{◌≡◌, []};
    ghost use Rattle.pg_value.specs.declared.shape.Shapes.{Shapes as Shapes'};

    ghost Value = { Shapes' };

    ghost view = { λ none. none.shapes };

    ghost invariant = { λ none. none.shapes ≡ record { tables = []; edges = [] } };
}

impl NoTables {
    /// It takes no memory.
    fn new(alloc: Global) -> NoTables {
        NoTables {
            shapes: Shapes {
                tables: List::new(alloc),
                edges: List::new(alloc),
            },
        }
    }
}

impl View for NoTables {
    ghost use Rattle.std.specs.Prelude.{[]};

    ghost shapes = { λ view. record { tables = []; edges = [] } };

    ghost tables = { λ view. [] };

    ghost row_cost = { λ view table. 1 };

    ghost hop_cost = { λ view edge dir key. 1 };

    fn shapes(&self) -> &Shapes {
        &self.shapes
    }

    fn row<L: Ledger>(&self, _table: TableNo, _key: &Key, steps: &mut Steps<L>) -> Option<&Row> {
        steps.tick();
        None
    }

    fn neighbours<L: Ledger>(
        &self,
        _alloc: Global,
        _edge: EdgeNo,
        _dir: Dir,
        _vertex: &Key,
        _out: &mut List<Neighbour>,
        steps: &mut Steps<L>,
    ) -> Result<(), AllocError> {
        steps.tick();
        Ok(())
    }

    fn elements(
        &self,
        alloc: Global,
        _graph: &GraphShape,
        _set: TableSet,
    ) -> Result<List<ElemId>, AllocError> {
        Ok(List::new(alloc))
    }

    fn well_made(&self) {}
}

/// An aggregate of a property of variable 0.
fn aggregate(alloc: Global, agg: Agg) -> Result<CExpr, AllocError>
    ensures { IfOk result (λ e. e ≡ exprs.Agg agg (exprs.Property 0 [])) }
{
    let arg = Boxed::new(
        alloc,
        CExpr::Property {
            var: 0,
            columns: List::new(alloc),
        },
    )?;
    Ok(CExpr::Agg { agg, arg })
}

/// One variable that stands for no element.
fn nothing(alloc: Global) -> Result<Bound, AllocError>
    ensures { IfOk result (λ bound. bound.vars ≡ Many [] ∷ []) }
{
    let mut vars = List::new(alloc);
    vars.push(Slot::Many(List::new(alloc)))?;
    Ok(Bound { vars })
}

/// The value and the truth of an aggregate over nothing.
fn over_nothing(alloc: Global, agg: Agg) -> Result<(Value, Truth), AllocError> {
    let bound = nothing(alloc)?;
    let expr = aggregate(alloc, agg)?;
    let none = NoTables::new(alloc);
    let truth = truth(&expr, &bound, &none);
    let value = eval(alloc, &expr, &bound, &none)?;
    Ok((value, truth))
}

#[test]
fn aggregates_over_nothing(rt: HostRuntime) -> Result<(), Fail> {
    let alloc = rt.alloc();
    let mut out = Text::new(alloc);
    for agg in [Agg::Count, Agg::Sum, Agg::Min, Agg::Max] {
        let (value, truth) = over_nothing(alloc, agg)?;
        assert!(rt; is_truth_of(truth, &value));
        print_value(&value, &mut out)?;
        out.push_ascii(b' ')?;
    }
    assert_eq!(rt; out.as_str(), "0 NULL NULL NULL ");
    Ok(())
}
