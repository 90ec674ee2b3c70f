//! Sessions with the answers that the definitions alone compute for them.

ghost use Rattle.session_rules.specs.Rows.{Shows};
ghost use Rattle.session_rules.specs.BesideSnapshots.{put_beside_a_snapshot, write_beside_a_snapshot};

/// Puts and writes beside a snapshot, which keeps what stood before them.
pub fn rows_beside_snapshots()
    ensures put_beside_a_snapshot { Shows put_beside_a_snapshot }
    ensures write_beside_a_snapshot { Shows write_beside_a_snapshot }
{}
