//! Every allowed binding of a path pattern from one start, over a view.
#![tactic(auto)]

mod bindings;
mod chains;
mod conditions;
mod entering;
mod follows;
mod hops;
mod laws;
mod numbered;
mod numbering;
mod reads;
mod rounds;
mod search;
mod seen;
mod states;
mod visit;

pub use bindings::binding_of_items;
pub use chains::{Chains, Link};
pub use conditions::{admits, has_table, is_read, meets, node_admits};
pub use hops::{hops_of, leg_admits, push_read};
pub use laws::sound_are_checked;
pub use numbered::Numbered;
pub use reads::push_neighbours;
pub use search::{is_vertex, paths};
pub use states::{Kept, States};
