//! Laws about walking the automaton, each the contract of a function that does nothing.
ghost use Rattle.pg_auto.specs.Allowed.{StagesFit, StartStands};
ghost use Rattle.pg_auto.specs.Tests.{TestsTell};
ghost use Rattle.pg_auto.specs.Steps.{StepsOn, StepsEnd};
ghost use Rattle.pg_auto.specs.Ways.{WaysAreWalks};
ghost use Rattle.pg_auto.specs.Once.{WalksByBindings, EndsByBindings};
ghost use Rattle.pg_auto.specs.Ranks.{SoundAreBounded, FirstIsValid, RanksFall, WeightsFall};

use pg_meaning::hops_are_neighbours;

/// A walk with cuts goes through the stages of a path pattern exactly where it fits the pattern's parts.
pub fn stages_fit()
    ensures { StagesFit }
{}

/// What a path pattern allows from a vertex is what completes the first state of its stages there.
pub fn start_stands()
    ensures { StartStands }
{}

/// In a stage, a walk completes a state exactly where it completes one of those that follow it.
pub fn steps_on()
    ensures { StepsOn }
{
    hops_are_neighbours();
}

/// Behind the last stage, a walk completes a state exactly where it is the state's own, and permitted.
pub fn steps_end()
    ensures { StepsEnd }
{}

/// The stages of a sound path pattern are bounded where its mode lets no part be repeated without end.
pub fn sound_are_bounded()
    ensures { SoundAreBounded }
{}

/// The first state is one that a search comes to.
pub fn first_is_valid()
    ensures { FirstIsValid }
{}

/// A state that follows one that a search comes to is such a state, and of lower rank.
pub fn ranks_fall()
    ensures { RanksFall }
{
    hops_are_neighbours();
}

/// A state weighs more than those that follow it together.
pub fn weights_fall()
    ensures { WeightsFall }
{
    hops_are_neighbours();
}

/// There is a way of a length from the first place to the end of the pattern exactly where a walk of that length fits.
pub fn ways_are_walks()
    ensures { WaysAreWalks }
{}

/// Two walks that complete the first state of a sound path pattern and give one binding are one walk, and name the same.
pub fn walks_by_bindings()
    ensures { WalksByBindings }
{}

/// Two states behind the last stage that give one binding of a sound path pattern are one state.
pub fn ends_by_bindings()
    ensures { EndsByBindings }
{}

/// The tests of a search tell what the relations say, also of one hop more.
pub fn tests_tell()
    ensures { TestsTell }
{}
