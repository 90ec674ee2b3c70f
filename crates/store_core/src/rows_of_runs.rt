//! Scripts with the transcripts that the definitions alone compute for them.

ghost use Rattle.store_core.specs.Rows.{Shows};
ghost use Rattle.store_core.specs.EveryPlace.{LossesInPuts, ThreeLossesInPuts, LossesInWrites, LossesInRebuilds};
ghost use Rattle.store_core.specs.RowsLarge.{many_actors, no_calls};
ghost use Rattle.store_core.specs.RowsShort.{ShowsUnder, put_without_memory, short_look, short_draw, short_encoding, short_prepare, short_commit};
ghost use Rattle.store_core.specs.RowsAway.{skipped_by_a_put, refused_put};
ghost use Rattle.store_core.specs.RowsAwayWrites.{refused_write, refused_at_the_second_stripe};
ghost use Rattle.store_core.specs.RowsAwayReads.{away_and_emptied, away_twice_and_emptied, rebuild_of_an_away_server};
ghost use Rattle.store_core.specs.RowsCalls.{put_then_get, empty_object, each_refusal};
ghost use Rattle.store_core.specs.RowsOneLoss.{read_after_one_loss, loss_before_prepare, loss_after_prepare, loss_before_old_bytes};
ghost use Rattle.store_core.specs.RowsManyLosses.{read_after_two_losses, read_after_three_losses, one_of_three_lost, three_of_three_lost};
ghost use Rattle.store_core.specs.RowsRaces.{read_of_a_replaced_version, lost_race, race_tried_again};
ghost use Rattle.store_core.specs.RowsGivenUp.{left_before_commit, left_after_commit, reaped_before_commit, strays_of_a_reaped_put};
ghost use Rattle.store_core.specs.RowsRebuilds.{superseded_rebuild, rebuilt_then_here};
ghost use Rattle.store_core.specs.RowsRebuildLosses.{loss_while_looking, loss_while_fetching};

/// Calls without losses.
pub fn rows_of_calls()
    ensures put_then_get { Shows put_then_get }
    ensures empty_object { Shows empty_object }
    ensures each_refusal { Shows each_refusal }
{}

/// One server is emptied.
pub fn rows_of_one_loss()
    ensures read_after_one_loss { Shows read_after_one_loss }
    ensures loss_before_prepare { Shows loss_before_prepare }
    ensures loss_after_prepare { Shows loss_after_prepare }
    ensures loss_before_old_bytes { Shows loss_before_old_bytes }
{}

/// Two or three servers are emptied.
pub fn rows_of_many_losses()
    ensures read_after_two_losses { Shows read_after_two_losses }
    ensures read_after_three_losses { Shows read_after_three_losses }
    ensures one_of_three_lost { Shows one_of_three_lost }
    ensures three_of_three_lost { Shows three_of_three_lost }
{}

/// Calls that run at the same time.
pub fn rows_of_races()
    ensures read_of_a_replaced_version { Shows read_of_a_replaced_version }
    ensures lost_race { Shows lost_race }
    ensures race_tried_again { Shows race_tried_again }
{}

/// Calls that are left or given up.
pub fn rows_of_calls_given_up()
    ensures left_before_commit { Shows left_before_commit }
    ensures left_after_commit { Shows left_after_commit }
    ensures reaped_before_commit { Shows reaped_before_commit }
    ensures strays_of_a_reaped_put { Shows strays_of_a_reaped_put }
{}

/// Rebuilds.
pub fn rows_of_rebuilds()
    ensures superseded_rebuild { Shows superseded_rebuild }
    ensures rebuilt_then_here { Shows rebuilt_then_here }
{}

/// A second loss while a chunk is rebuilt.
pub fn rows_of_losses_in_rebuilds()
    ensures loss_while_looking { Shows loss_while_looking }
    ensures loss_while_fetching { Shows loss_while_fetching }
{}

/// Want of memory at several places of a put, and where it isn't heard.
pub fn rows_of_wanting_memory()
    ensures look { ShowsUnder short_look put_without_memory }
    ensures draw { ShowsUnder short_draw put_without_memory }
    ensures encoding { ShowsUnder short_encoding put_without_memory }
    ensures prepare { ShowsUnder short_prepare put_without_memory }
    ensures commit { ShowsUnder short_commit put_then_get }
{}

/// One loss or three after each number of steps of a put.
pub fn rows_of_losses_at_every_place_of_a_put()
    ensures one { LossesInPuts }
    ensures three { ThreeLossesInPuts }
{}

/// A loss after each number of steps of a write, and of a rebuild.
pub fn rows_of_losses_at_every_place_of_a_write_and_a_rebuild()
    ensures write { LossesInWrites }
    ensures rebuild { LossesInRebuilds }
{}

/// A script of several clients and repairers over twelve servers, and one without calls.
pub fn rows_of_large_scripts()
    ensures many_actors { Shows many_actors }
    ensures no_calls { Shows no_calls }
{}

/// Servers that are away: a put without one, a put and a write that are refused, reads, a rebuild.
pub fn rows_of_servers_away()
    ensures skipped_by_a_put { Shows skipped_by_a_put }
    ensures refused_put { Shows refused_put }
    ensures refused_write { Shows refused_write }
    ensures refused_at_the_second_stripe { Shows refused_at_the_second_stripe }
    ensures away_and_emptied { Shows away_and_emptied }
    ensures away_twice_and_emptied { Shows away_twice_and_emptied }
    ensures rebuild_of_an_away_server { Shows rebuild_of_an_away_server }
{}
