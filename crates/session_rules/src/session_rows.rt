//! Sessions with the answers that the definitions alone compute for them.

ghost use Rattle.session_rules.specs.Rows.{Shows};
ghost use Rattle.session_rules.specs.RowsCalls.{put_then_losses, reads_beyond_repair, writes_beyond_repair, refusals};
ghost use Rattle.session_rules.specs.RowsRebuilds.{rebuilds, two_lost_chunks, heal_in_part};
ghost use Rattle.session_rules.specs.RowsSnapshots.{read_of_a_replaced_object, lost_snapshot, scrub_beside_a_snapshot};
ghost use Rattle.session_rules.specs.RowsFrames.{no_requests, InputsEndSo, many_objects};

/// Calls of the map, and losses that they bear or not.
pub fn rows_of_calls()
    ensures put_then_losses { Shows put_then_losses }
    ensures reads_beyond_repair { Shows reads_beyond_repair }
    ensures writes_beyond_repair { Shows writes_beyond_repair }
    ensures refusals { Shows refusals }
{}

/// Rebuilds, scrubs and heals.
pub fn rows_of_rebuilds()
    ensures rebuilds { Shows rebuilds }
    ensures two_lost_chunks { Shows two_lost_chunks }
    ensures heal_in_part { Shows heal_in_part }
{}

/// Snapshots.
pub fn rows_of_snapshots()
    ensures read_of_a_replaced_object { Shows read_of_a_replaced_object }
    ensures lost_snapshot { Shows lost_snapshot }
    ensures scrub_beside_a_snapshot { Shows scrub_beside_a_snapshot }
{}

/// Frames that are no requests, endings, and a snapshot of too many objects.
pub fn rows_of_frames()
    ensures no_requests { Shows no_requests }
    ensures endings { InputsEndSo }
    ensures many_objects { Shows many_objects }
{}
