//! What the definitions say, as functions that do nothing and whose contracts are the laws.

ghost use Rattle.clay_grid.specs.Shape.{Shape};
ghost use Rattle.run_laws.specs.SweepLaws.{SweepsInOrder};
ghost use Rattle.run_laws.specs.DrainLaws.{DrainsEnd};
ghost use Rattle.run_laws.specs.RunLaws.{RunsStaySound};
ghost use Rattle.run_laws.specs.PassLaws.{PassesAreOfCalls};
ghost use Rattle.std.specs.Prelude.{List};
ghost use Rattle.store_map.specs.declared.actor.Token.{Token};
ghost use Rattle.store_map.specs.declared.script.Script.{Script};
ghost use Rattle.store_core.specs.Core.{Core};
ghost use Rattle.store_core.specs.Step.{Shortage};
ghost use Rattle.run_laws.specs.FormLaws.{ServersStayInFormOne};
ghost use Rattle.run_laws.specs.ToldLaws.{CallsAreTold};
ghost use Rattle.run_laws.specs.RoundLaws.{DrainsGoByRounds};
ghost use Rattle.run_laws.specs.ShortageLaws.{PartsLeadOn, StepsLead, TokensLead};

/// The sweeper asks the directory for a version, discards it at each server in rising order, and says
/// that it is swept: two steps more than there are servers.
pub fn sweeper_sweeps_in_order()
    ensures { (g : Shape) → SweepsInOrder g }
{}

/// In every run of a valid script the directory is sound, whatever was wanting of memory.
pub fn runs_keep_the_directory_sound()
    ensures { RunsStaySound }
{}

/// In every run of a valid script no actor is lost, each call keeps its bound on steps, and after a
/// drain nobody has a step.
pub fn drains_end()
    ensures { DrainsEnd }
{}

/// In every such run an actor has a pass only for the call that it has in work, once the call has made
/// a step, and a step on a pass finds it. So a call that has ended, or has not begun, leaves none.
pub fn passes_are_of_calls_in_work()
    ensures { PassesAreOfCalls }
{}

/// In every run of a valid script a drain is a round and then a drain, as long as somebody has a step;
/// the rounds that it makes are one less after each, and no more than its fuel.
pub fn drains_go_by_rounds()
    ensures { DrainsGoByRounds }
{}

/// A step of an actor, the sweeper or the operator uses up the shortages of its place and no others, and a
/// part of a run that makes no step uses none; parts lead on one after the other. So a run that learns
/// its shortages step by step is the run with all of them.
pub fn shortages_lead_on()
    ensures parts { PartsLeadOn }
    ensures steps { (script : Script) (core : Core) (shortages : Shortage) → StepsLead script core shortages }
    ensures tokens { (script : Script) (tokens : List Token) (before : Core) → TokensLead script tokens before }
{}

/// The schedule of a valid script of form 1 makes no server away, and in a run of such tokens none is.
pub fn servers_are_never_away_in_form_one()
    ensures { ServersStayInFormOne }
{}

/// In every run of a valid script what a call was told is what it can be told, step by step, and a call
/// that has ended had its outcome after such answers. So what is said of calls that are told their
/// answers step by step holds in every run.
pub fn calls_are_told_step_by_step()
    ensures { CallsAreTold }
{}
