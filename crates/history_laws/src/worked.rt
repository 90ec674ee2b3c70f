//! Worked calls that meet what the law of answers asks for, and some of which the law of takes speaks.

ghost use Rattle.std.specs.Prelude.{false, [], ◌∷◌, codes};
ghost use Rattle.store_map.specs.declared.call.Call.TheVariants.{ReadAt};
ghost use Rattle.store_map.specs.declared.call_name.CallName.TheVariants.{Client, Repairer};
ghost use Rattle.store_core.specs.RowLines.{client, repair};
ghost use Rattle.store_core.specs.RowsCalls.{put_then_get, each_refusal};
ghost use Rattle.store_core.specs.RowsManyLosses.{read_after_two_losses, read_after_three_losses};
ghost use Rattle.store_core.specs.RowsAway.{refused_put};
ghost use Rattle.store_core.specs.RowsAwayReads.{rebuild_of_an_away_server};
ghost use Rattle.store_core.specs.RowsRaces.{lost_race};
ghost use Rattle.store_core.specs.RowsShort.{put_without_memory, short_prepare};
ghost use Rattle.store_core.specs.RowsGivenUp.{reaped_before_commit, left_before_commit};
ghost use Rattle.store_core.specs.RowsRebuilds.{superseded_rebuild, rebuilt_then_here};
ghost use Rattle.history_laws.specs.Answered.{IsRefused};
ghost use Rattle.history_laws.specs.Hindered.{IsLeft, IsUnmade, WasHindered, nothing};
ghost use Rattle.history_laws.specs.Worked.{IsAnswerable, IsRebuildable, TookOnePart, TookItsBytes};

/// A put and a get with all servers there, and a get for which as many servers lack their chunk as there
/// are parity chunks.
pub fn worked_calls_are_answerable()
    ensures put { IsAnswerable put_then_get (client 0 0) }
    ensures get { IsAnswerable put_then_get (client 0 1) }
    ensures lossy { IsAnswerable read_after_two_losses (client 0 1) }
{}

/// A rebuild of a chunk that was lost, and one of the chunk that this has made.
pub fn worked_rebuilds_are_answerable()
    ensures lost { IsRebuildable rebuilt_then_here (repair 0 0) }
    ensures there { IsRebuildable rebuilt_then_here (repair 0 1) }
{}

/// Calls that lack one thing alone that the law asks for, and are refused, or left without an answer: of
/// codes with two parity chunks three servers that lacked their chunk or that were away, a write's only
/// try, memory, a reap, and steps enough.
pub fn worked_calls_need_what_is_asked()
    ensures lacking { WasHindered read_after_three_losses [] Client (client 0 1) (record nothing { lacking = (0, 0) ∷ (0, 1) ∷ (0, 2) ∷ [] }) IsRefused }
    ensures away { WasHindered refused_put [] Client (client 0 0) (record nothing { skipped = (0, 0) ∷ (0, 1) ∷ (0, 2) ∷ [] }) IsRefused }
    ensures overtaken { WasHindered lost_race [] Client (client 1 0) (record nothing { changes = 1 }) IsRefused }
    ensures short { WasHindered put_without_memory short_prepare Client (client 0 0) (record nothing { ample = false }) IsRefused }
    ensures given_up { WasHindered reaped_before_commit [] Client (client 0 0) (record nothing { kept = false }) IsRefused }
    ensures left { WasHindered left_before_commit [] Client (client 0 0) (record nothing { over = false }) IsLeft }
{}

/// Rebuilds that lack one thing alone, and leave their target without its chunk: the object wasn't there, the
/// stripe was superseded, or the target was away.
pub fn worked_rebuilds_need_what_is_asked()
    ensures no_object { WasHindered each_refusal [] Repairer (repair 0 0) (record nothing { found = false }) IsUnmade }
    ensures superseded { WasHindered superseded_rebuild [] Repairer (repair 0 0) (record nothing { lacking = (0, 0) ∷ []; current = false }) IsUnmade }
    ensures target_away { WasHindered rebuild_of_an_away_server [] Repairer (repair 0 0) (record nothing { lacking = (0, 0) ∷ []; reached = false }) IsUnmade }
{}

/// A rebuild that lacked its target's chunk alone took four of the eight subchunks of each other chunk, and
/// not whole chunks; a read of three bytes over two stripes took the three subchunks that have them, and not
/// whole chunks.
pub fn worked_takes_are_least()
    ensures rebuild { TookOnePart rebuilt_then_here (repair 0 0) 1 (8 ∷ 0 ∷ 8 ∷ 8 ∷ 8 ∷ []) }
    ensures read { TookItsBytes each_refusal (client 0 7) (ReadAt (codes "a") 7 100) (4 ∷ 4 ∷ 0 ∷ 0 ∷ []) }
{}
