//! What becomes of the items of a list.
ghost use Rattle.std.specs.Prelude.{◌≡◌, ◌∷◌, [], IfOk};
ghost use Rattle.std.specs.declared.option.Option.{Option as Opt};
ghost use Rattle.std.specs.declared.option.Option.TheVariants.{Some};
ghost use Rattle.std.specs.Option.{option_map};
ghost use Rattle.pg_value.specs.Log.{row_given};
ghost use Rattle.pg_value.specs.TablesLaws.{key_fits};

use crate::Copied;
use pg_chunks::Keyed;
use pg_value::{Row, Stored, Write, copy_key, copy_row, order_keys};
use std::alloc::{AllocError, Global};
use std::cmp::Ordering;

/// What becomes of the item of a key: the one that stands there from then on, or none.
pub trait Change<T: Keyed> {
    /// The key that it names.
    ghost named: { Self → T.Key };

    /// The item that it gives, if it gives one.
    ghost given: { Self → Opt T };

    /// How the key of an item is ordered against the one that is named.
    fn order(&self, item: &T) -> Ordering
        ensures { result ≡ T.key_cmp (T.key_of item.now) (named self.now) };

    /// The item that it gives, if it gives one. Only want of memory refuses it.
    fn item(&self, alloc: Global) -> Result<Option<T>, AllocError>
        ensures { IfOk result (λ item. item ≡ given self.now) };

    /// An item that it gives has the key that it names.
    ghost fits: { (c : Self) (x : T) → given c ≡ Some x → T.key_of x ≡ named c };
}

/// A row is shared, and its key is copied.
impl Copied for Stored {
    fn copied(&self, alloc: Global) -> Result<Stored, AllocError> {
        Ok(Stored {
            table: self.table,
            key: copy_key(alloc, &self.key)?,
            row: copy_row(&self.row)?,
        })
    }
}

/// The row that a write gives, beside the write's key.
fn stored(alloc: Global, write: &Write, row: &Row) -> Result<Stored, AllocError>
    ensures { IfOk result (λ stored. stored ≡ record { table = write.now.table; key = write.now.key; row = row.now }) }
{
    Ok(Stored {
        table: write.table,
        key: copy_key(alloc, &write.key)?,
        row: copy_row(row)?,
    })
}

/// A write changes the rows of its table.
impl Change<Stored> for Write {
    ghost named = { λ w. w.key.values };

    ghost given = { row_given };

    fn order(&self, row: &Stored) -> Ordering {
        order_keys(&row.key, &self.key)
    }

    fn item(&self, alloc: Global) -> Result<Option<Stored>, AllocError> {
        match &self.row {
            Some(row) => Ok(Some(stored(alloc, self, row)?)),
            None => Ok(None),
        }
    }

    ghost fits = { λ w. (key_fits (w ∷ [])).0 };
}
