//! What the definitions say, as functions that do nothing and whose contracts are the laws.
ghost use Rattle.snapshot_view.specs.InTime.{ReadsFindInTime};
ghost use Rattle.snapshot_view.specs.Laws.{SnapshotsStay};

/// A directory stays in agreement with a snapshot's tickets whatever steps others make there, and the
/// versions of the objects stay pinned until the operator reaps their passes.
pub fn snapshots_stay()
    ensures { SnapshotsStay }
{}

/// Each server that a read of a snapshot has found without its chunk told it so at one of the read's steps,
/// with its count at that moment; the chunk was placed there as the snapshot keeps it. Whatever steps
/// others make between, also where passes were reaped.
pub fn reads_find_in_time()
    ensures { ReadsFindInTime }
{}
