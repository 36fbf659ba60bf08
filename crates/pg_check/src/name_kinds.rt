//! The kinds of what the names in an expression stand for.
ghost use Rattle.std.specs.Prelude.{◌≡◌, ℕ, List, None, Some, option_map};
ghost use Rattle.pg_meaning.specs.Typing.{Names, no_names, width_named};
ghost use Rattle.pg_rules.specs.Changes.{names_of};
ghost use Rattle.pg_check.specs.Scopes as pass;

use pg_catalog::PropertyKinds;
use pg_rules::ColumnEntry;
use pg_value::{Kind, Text};

/// What says the kinds of columns and of properties by their names.
pub trait NameKinds {
    ghost use Rattle.pg_meaning.specs.Typing.{Names};

    ghost names: { Self → Names };

    /// The kind of a column of the table that is changed; None exactly where no column may have the name.
    fn column(&self, name: &Text) -> Option<Kind>
        ensures kind { result ≡ option_map (λ t. t.kind) (names self.now None name.now) }
        ensures width { pass.column_width result ≡ width_named (names self.now None name.now) };

    /// The kind of a property, of whatever variable; None exactly where no property may have the name.
    fn property(&self, name: &Text) -> Option<Kind>
        ensures kind { (variable : List ℕ) → result ≡ option_map (λ t. t.kind) (names self.now (Some variable) name.now) }
        ensures width { (variable : List ℕ) → pass.column_width result ≡ width_named (names self.now (Some variable) name.now) };
}

impl<'a> NameKinds for PropertyKinds<'a> {
    ghost names = { pass.scope };

    fn column(&self, _name: &Text) -> Option<Kind> {
        None
    }

    fn property(&self, name: &Text) -> Option<Kind> {
        self.kind(name)
    }
}

/// No name may stand, as in the values of an INSERT.
#[derive(Clone, Copy)]
pub struct NoNames;

impl NameKinds for NoNames {
    ghost names = { λ n. no_names };

    fn column(&self, _name: &Text) -> Option<Kind> {
        None
    }

    fn property(&self, _name: &Text) -> Option<Kind> {
        None
    }
}

/// The columns of a table, which may stand alone.
#[derive(Clone, Copy)]
pub struct ColumnKinds<'a> {
    pub columns: &'a [ColumnEntry],
}

/// The kind of the column of a name.
fn column_kind(columns: &[ColumnEntry], name: &Text) -> Option<Kind>
    ensures kind { result ≡ option_map (λ t. t.kind) (names_of columns.now None name.now) }
    ensures width { pass.column_width result ≡ width_named (names_of columns.now None name.now) }
{
    for column in columns {
        if *name == column.name {
            return Some(column.shape.kind);
        }
    }
    None
}

impl<'a> NameKinds for ColumnKinds<'a> {
    ghost names = { λ k. names_of k.columns.now };

    fn column(&self, name: &Text) -> Option<Kind> {
        column_kind(self.columns, name)
    }

    fn property(&self, _name: &Text) -> Option<Kind> {
        None
    }
}
