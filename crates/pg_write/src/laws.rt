//! The law of what a change writes, on which the contracts above it rest.
ghost use Rattle.pg_write.specs.ChangeEffects.{EffectsFit};

/// The law that what a change writes fits the shapes of the tables, where the writes that were given do: each row has for each
/// column of its table a value that the column may hold, and stands under its own key, in which no column's value is NULL.
pub fn effects_fit()
    ensures { EffectsFit }
{}
