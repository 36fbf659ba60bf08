//! What ANY, ANY SHORTEST and ALL SHORTEST keep of the walks of every length from one start, over a view: a search, least lengths first.
#![tactic(auto)]

mod all;
mod any;
mod back;
mod bindings;
mod conditions;
mod queue;
mod rests;
mod rounds;
mod search;
mod spots;
mod steps;
mod tight;
mod traces;
mod visited;

pub use all::all_shortest_from;
pub use any::{any_from, any_shortest_from};
