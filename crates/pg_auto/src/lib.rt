//! The automaton of a path pattern: its parts as stages, each a round with the number of times that it is repeated. It is
//! counted, not unrolled, and borrows the conditions of the checked path.
#![tactic(auto)]

mod auto;
mod compiling;
mod laws;

pub use auto::{Auto, Leg, Stage, Variable};
pub use compiling::compile;
pub use laws::{
    ends_by_bindings, first_is_valid, ranks_fall, sound_are_bounded, stages_fit, start_stands,
    steps_end, steps_on, tests_tell, walks_by_bindings, ways_are_walks, weights_fall,
};
