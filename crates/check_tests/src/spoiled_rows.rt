//! Transcripts that are none of their script's, each with the fault that is found.

ghost use Rattle.check_tests.specs.Judged.{IsFaulty};
ghost use Rattle.check_tests.specs.FaultsOfCalls.{call_too_many, actor_too_many, point_twice, calls_swapped};
ghost use Rattle.check_tests.specs.FaultsOfOrder.{answer_left_out, answered_twice, open_call_left_out, answered_and_open};
ghost use Rattle.check_tests.specs.FaultsOfReplies.{other_bytes, open_read, object_left_out, object_longer, object_too_many};
ghost use Rattle.check_tests.specs.FaultsOfRefusals.{too_few_servers, never_emptied, server_twice, server_too_many, placed_later, refused_put_of_form_one};
ghost use Rattle.check_tests.specs.FaultsOfRaces.{too_few_races, lost_to_a_read, lost_to_its_base, races_overlap};
ghost use Rattle.check_tests.specs.FaultsOfResults.{given_up_by_nobody, given_up_twice, superseded_by_nothing, other_stripe, target_never_away, never_away};
ghost use Rattle.check_tests.specs.FaultsOfTakes.{read_left_out, rebuild_left_out, given_to_nobody, epoch_too_high, takes_left_out};

/// Calls that the script hasn't, or that stand out of order; answers that are left out, or come twice; replies and objects that aren't the plain map's.
pub fn faults_of_lines()
    ensures call_too_many { IsFaulty call_too_many }
    ensures actor_too_many { IsFaulty actor_too_many }
    ensures point_twice { IsFaulty point_twice }
    ensures calls_swapped { IsFaulty calls_swapped }
    ensures answer_left_out { IsFaulty answer_left_out }
    ensures answered_twice { IsFaulty answered_twice }
    ensures open_call_left_out { IsFaulty open_call_left_out }
    ensures answered_and_open { IsFaulty answered_and_open }
    ensures other_bytes { IsFaulty other_bytes }
    ensures open_read { IsFaulty open_read }
    ensures object_left_out { IsFaulty object_left_out }
    ensures object_longer { IsFaulty object_longer }
    ensures object_too_many { IsFaulty object_too_many }
{}

/// Refusals that name too few servers, or servers that had their chunk; races that weren't lost; calls that nobody gave up, rebuilds that name something else, and servers that were never away.
pub fn faults_of_causes()
    ensures too_few_servers { IsFaulty too_few_servers }
    ensures never_emptied { IsFaulty never_emptied }
    ensures server_twice { IsFaulty server_twice }
    ensures server_too_many { IsFaulty server_too_many }
    ensures placed_later { IsFaulty placed_later }
    ensures refused_put_of_form_one { IsFaulty refused_put_of_form_one }
    ensures too_few_races { IsFaulty too_few_races }
    ensures lost_to_a_read { IsFaulty lost_to_a_read }
    ensures lost_to_its_base { IsFaulty lost_to_its_base }
    ensures races_overlap { IsFaulty races_overlap }
    ensures given_up_by_nobody { IsFaulty given_up_by_nobody }
    ensures given_up_twice { IsFaulty given_up_twice }
    ensures superseded_by_nothing { IsFaulty superseded_by_nothing }
    ensures other_stripe { IsFaulty other_stripe }
    ensures target_never_away { IsFaulty target_never_away }
    ensures never_away { IsFaulty never_away }
{}

/// Takes that no line tells of, and servers whose lines don't add up.
pub fn faults_of_takes()
    ensures read_left_out { IsFaulty read_left_out }
    ensures rebuild_left_out { IsFaulty rebuild_left_out }
    ensures given_to_nobody { IsFaulty given_to_nobody }
    ensures epoch_too_high { IsFaulty epoch_too_high }
    ensures takes_left_out { IsFaulty takes_left_out }
{}
