//! Scripts: sections of items, and the order of their turns.
use pg_value::{List, Text};

/// What a section does next.
#[derive(Clone, Copy)]
pub enum Item {
    /// The statement of the script's bytes from `from` up to `to`, its `;` included where it has one.
    Sql { from: u32, to: u32 },
    /// Waits until section `section`, an earlier session, has finished `n` items.
    After { section: u32, n: u32 },
}

/// A section of a script: its name, and its items in order. The setup's name is `setup`.
#[derive(Drop)]
pub struct Section {
    pub name: Text,
    pub items: List<Item>,
}

/// A script: its text, the setup as section 0 (without items where none stands), the sessions as sections from 1 in file
/// order, and the sessions of its `@order`, one for each turn.
#[derive(Drop)]
pub struct Script {
    pub text: Text,
    pub has_setup: bool,
    pub sections: List<Section>,
    pub order: List<u32>,
}
