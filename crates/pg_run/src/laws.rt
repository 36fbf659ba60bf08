//! What runs are for: a run put on tables is its versions' writes, put one after another.
ghost use Rattle.pg_run.specs.Laws.{MergeIsPutAfterPut};

/// A run that is merged of two says of tables what the older put on them and then the newer say. It does nothing.
pub fn merge_is_put_after_put()
    ensures { MergeIsPutAfterPut }
{}
