//! Rows in value order.
ghost use Rattle.std.specs.Prelude.{◌≡◌, OnOk, OnErr};
ghost use Rattle.std.proofs.Common.{refl};
ghost use Rattle.std.specs.List.Sorted.{IsPermutation, IsSorted};
ghost use Rattle.std.specs.Ordering.{as_partial_cmp};
ghost use Rattle.pg_value.specs.Orders.{row_order, same_row, row_total, row_equivalence, row_partial, row_partial_order};

use crate::{Row, order_rows};
use std::alloc::AllocError;
use std::cmp::Ordering;

impl PartialEq for Row {
    ghost eq = { same_row };

    ghost laws = { row_partial };

    fn eq(&self, other: &Row) -> bool {
        matches!(order_rows(self, other), Ordering::Equal)
    }
}

impl Eq for Row {
    ghost laws = { row_equivalence };
}

impl PartialOrd for Row {
    ghost partial_cmp = { as_partial_cmp row_order };

    ghost laws = { row_partial_order };

    fn partial_cmp(&self, other: &Row) -> Option<Ordering> {
        Some(order_rows(self, other))
    }
}

impl Ord for Row {
    ghost cmp = { row_order };

    ghost total = { row_total };

    ghost matches_partial_cmp = { λ x y. refl };

    ghost matches_eq = { λ x y. refl };

    fn cmp(&self, other: &Row) -> Ordering {
        order_rows(self, other)
    }
}

/// Puts rows into value order. After want of memory they are the same rows in some order.
pub fn sort_rows(rows: &mut Vec<Row>) -> Result<(), AllocError>
    ensures same { IsPermutation rows.old.items rows.new.items }
    ensures sorted { OnOk result (IsSorted row_order rows.new.items) }
{
    rows.sort()
}
