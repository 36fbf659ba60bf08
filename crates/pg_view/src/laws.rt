//! Laws of views, each the contract of a function that does nothing.
ghost use Rattle.pg_view.specs.Lists.{ListsAreTables};

/// Tables whose rows some lists hold are these lists, one after another; and where they fit shapes that are well made, the
/// lists make a view.
pub fn lists_are_tables()
    ensures { ListsAreTables }
{}
