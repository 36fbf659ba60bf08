//! What snapshots are: versions of a log, under a transaction's own writes.
ghost use Rattle.pg_snap.specs.Laws.{SnapshotsAreVersions};

/// A snapshot over a base that is a version of a log, and over the runs of the versions behind it, is the tables after as many
/// commits as its version says, under its own writes. It does nothing.
pub fn snapshots_are_versions()
    ensures { SnapshotsAreVersions }
{}
