//! Rows and keys: how they are made, their order, and copies of them.
ghost use Rattle.std.specs.Prelude.{◌≡◌, IfOk};
ghost use Rattle.pg_value.specs.Order.{row_cmp, key_cmp};

use crate::value::order_values;
use crate::{KeyValues, List, Shared, Value};
use std::alloc::{AllocError, Global};
use std::cmp::Ordering;

/// The values of a row, one for each column of its table, or for each column of a query's answer. They are kept once, and
/// shared by all copies of the row: a row takes 8 bytes, and its values together 32 on the heap and 24 each.
#[derive(Drop)]
pub struct Row {
    pub values: Shared<List<Value>>,
}

impl Row {
    /// The row of these values, with no room for more. Only want of memory refuses it.
    pub fn new(alloc: Global, values: List<Value>) -> Result<Row, AllocError>
        ensures { IfOk result (λ row. row.values ≡ values) }
    {
        Ok(Row {
            values: Shared::new(alloc, values.without_room())?,
        })
    }
}

/// The values of a row's key columns, in order of the key: 1 to 4, none of them NULL. It takes 32 bytes, and several values
/// 24 each on the heap.
#[derive(Drop)]
pub struct Key {
    pub values: KeyValues,
}

impl Key {
    /// The key of these values.
    pub fn new(values: List<Value>) -> Key
        ensures { result.values ≡ values }
    {
        Key {
            values: KeyValues::from_list(values),
        }
    }
}

/// How two rows are ordered: by the first column that differs, NULL first.
pub fn order_rows(a: &Row, b: &Row) -> Ordering
    ensures { result ≡ row_cmp a.now.values b.now.values }
{
    order_lists(a.values.as_slice(), b.values.as_slice())
}

/// How two keys of one table are ordered: by the first key column that differs.
pub fn order_keys(a: &Key, b: &Key) -> Ordering
    ensures { result ≡ key_cmp a.now.values b.now.values }
{
    a.values.order(&b.values)
}

/// How two lists of values are ordered: by the first place at which they differ; the shorter is less where it is a front.
pub(crate) fn order_lists(a: &[Value], b: &[Value]) -> Ordering
    ensures { result ≡ row_cmp a.now b.now }
{
    match a {
        [] => match b {
            [] => Ordering::Equal,
            _ => Ordering::Less,
        },
        [x, xs @ ..] => match b {
            [] => Ordering::Greater,
            [y, ys @ ..] => match order_values(x, y) {
                Ordering::Equal => order_lists(xs, ys),
                order => order,
            },
        },
    }
}

/// An equal row, which shares the values. It takes no memory, and is refused only where 2^63 rows share them.
pub fn copy_row(row: &Row) -> Result<Row, AllocError>
    ensures { IfOk result (λ copy. copy ≡ row.now) }
{
    Ok(Row {
        values: row.values.share()?,
    })
}

/// An equal key. One number or truth value takes no memory. Only want of memory refuses it.
pub fn copy_key(alloc: Global, key: &Key) -> Result<Key, AllocError>
    ensures { IfOk result (λ copy. copy ≡ key.now) }
{
    Ok(Key {
        values: key.values.copy(alloc)?,
    })
}
