//! The law of sound catalogs: what `define` makes of nothing, one accepted definition after another, is sound.
ghost use Rattle.pg_rules.specs.Catalog.SoundDefinitions as spec;

/// A catalog of nothing is sound, and a definition that has no fault keeps a catalog sound.
pub fn sound_definitions()
    ensures nothing { spec.NothingIsSound }
    ensures kept { spec.DefinitionsKeepSound }
{}
