//! A law about sound path patterns, the contract of a function that does nothing.
ghost use Rattle.pg_search.specs.Checked.{SoundAreChecked};

/// What the stages of a sound path pattern ask may be judged over the shapes for which it is sound.
pub fn sound_are_checked()
    ensures { SoundAreChecked }
{}
