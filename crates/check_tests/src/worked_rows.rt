//! The store's worked transcripts are histories of their scripts.

ghost use Rattle.check_tests.specs.Judged.{ShowsHistory};
ghost use Rattle.store_core.specs.RowsCalls.{put_then_get, empty_object, each_refusal};
ghost use Rattle.store_core.specs.RowsOneLoss.{read_after_one_loss, loss_before_prepare, loss_after_prepare, loss_before_old_bytes};
ghost use Rattle.store_core.specs.RowsManyLosses.{read_after_two_losses, read_after_three_losses, one_of_three_lost, three_of_three_lost};
ghost use Rattle.store_core.specs.RowsRaces.{read_of_a_replaced_version, lost_race, race_tried_again};
ghost use Rattle.store_core.specs.RowsGivenUp.{left_before_commit, left_after_commit, reaped_before_commit, strays_of_a_reaped_put};
ghost use Rattle.store_core.specs.RowsRebuilds.{superseded_rebuild, rebuilt_then_here};
ghost use Rattle.store_core.specs.RowsRebuildLosses.{loss_while_looking, loss_while_fetching};
ghost use Rattle.store_core.specs.RowsAway.{skipped_by_a_put, refused_put};
ghost use Rattle.store_core.specs.RowsAwayReads.{away_and_emptied, away_twice_and_emptied, rebuild_of_an_away_server};
ghost use Rattle.store_core.specs.RowsShort.{put_without_memory};
ghost use Rattle.store_core.specs.RowsLarge.{many_actors, no_calls};

/// Calls without losses, one of them without memory; calls that run at the same time, and calls that are left or given up.
pub fn histories_without_losses()
    ensures put_then_get { ShowsHistory put_then_get }
    ensures empty_object { ShowsHistory empty_object }
    ensures each_refusal { ShowsHistory each_refusal }
    ensures put_without_memory { ShowsHistory put_without_memory }
    ensures read_of_a_replaced_version { ShowsHistory read_of_a_replaced_version }
    ensures lost_race { ShowsHistory lost_race }
    ensures race_tried_again { ShowsHistory race_tried_again }
    ensures left_before_commit { ShowsHistory left_before_commit }
    ensures left_after_commit { ShowsHistory left_after_commit }
    ensures reaped_before_commit { ShowsHistory reaped_before_commit }
    ensures strays_of_a_reaped_put { ShowsHistory strays_of_a_reaped_put }
{}

/// One, two or three servers are emptied, before rebuilds and while they run.
pub fn histories_with_losses()
    ensures read_after_one_loss { ShowsHistory read_after_one_loss }
    ensures loss_before_prepare { ShowsHistory loss_before_prepare }
    ensures loss_after_prepare { ShowsHistory loss_after_prepare }
    ensures loss_before_old_bytes { ShowsHistory loss_before_old_bytes }
    ensures read_after_two_losses { ShowsHistory read_after_two_losses }
    ensures read_after_three_losses { ShowsHistory read_after_three_losses }
    ensures one_of_three_lost { ShowsHistory one_of_three_lost }
    ensures three_of_three_lost { ShowsHistory three_of_three_lost }
    ensures superseded_rebuild { ShowsHistory superseded_rebuild }
    ensures rebuilt_then_here { ShowsHistory rebuilt_then_here }
    ensures loss_while_looking { ShowsHistory loss_while_looking }
    ensures loss_while_fetching { ShowsHistory loss_while_fetching }
{}

/// Servers that are away; many actors, and many servers without calls.
pub fn histories_of_servers_away_and_large_scripts()
    ensures skipped_by_a_put { ShowsHistory skipped_by_a_put }
    ensures refused_put { ShowsHistory refused_put }
    ensures away_and_emptied { ShowsHistory away_and_emptied }
    ensures away_twice_and_emptied { ShowsHistory away_twice_and_emptied }
    ensures rebuild_of_an_away_server { ShowsHistory rebuild_of_an_away_server }
    ensures many_actors { ShowsHistory many_actors }
    ensures no_calls { ShowsHistory no_calls }
{}
