//! The laws, as functions that do nothing and whose contracts are the laws.

ghost use Rattle.std.specs.Prelude.{ℕ};
ghost use Rattle.store_map.specs.declared.script.Script.{Script};
ghost use Rattle.store_core.specs.Step.{Shortage};
ghost use Rattle.world_laws.specs.World.{ActorOf, WorldOf};
ghost use Rattle.world_laws.specs.FirstWorld.{FirstWorldsStand};
ghost use Rattle.world_laws.specs.Leads.{PartsLeadWorlds};
ghost use Rattle.world_laws.specs.TurnLaws.{ClientsMakeTurns, RepairersMakeTurns};
ghost use Rattle.world_laws.specs.WayLaws.{CallsAreUnderWay};
ghost use Rattle.world_laws.specs.TokenLaws.{WorldsStayAgreed, FirstTokensAgree};
ghost use Rattle.world_laws.specs.ShowLaws.{WorldsShow};
ghost use Rattle.world_laws.specs.RunLaws.{RunsReach, DrainsOfValidScriptsReach};
ghost use Rattle.world_laws.specs.RoundLaws.{EndsAreKnown, RoundsAreRounds};
ghost use Rattle.world_laws.specs.PlaceLaws.{SweeperMakesTurns, OperatorMakesActions};
ghost use Rattle.world_laws.specs.Goes.{WorldsGoOn};
ghost use Rattle.world_laws.specs.Drains.{DrainsOfValidScriptsGo};
ghost use Rattle.world_laws.specs.Few.{WorldsMakeFewSteps};
ghost use Rattle.world_laws.specs.SweepsLeft.{SweepsFallFrom};

/// The world before the first step stands for the first core of its script.
pub fn first_worlds_stand()
    ensures { FirstWorldsStand }
{}

/// Parts of a run that lead from world to world do so one after the other, with the shortages of the
/// first and then those of the second.
pub fn parts_lead_worlds()
    ensures { PartsLeadWorlds }
{}

/// A client's turn and a repairer's is its step in the definitions, and uses up one shortage. An actor
/// without a step changes nothing.
pub fn turns_are_steps()
    ensures clients { (script : Script) (i : ℕ) (w : WorldOf) → ClientsMakeTurns script i w }
    ensures repairers { (script : Script) (i : ℕ) (w : WorldOf) → RepairersMakeTurns script i w }
{}

/// The sweeper's turn and each action of the operator is its step in the definitions, and uses up one
/// shortage.
pub fn sweeps_and_actions_are_steps()
    ensures sweeper { (script : Script) (w : WorldOf) (shortage : Shortage) → SweeperMakesTurns script w shortage }
    ensures operator { (script : Script) (w : WorldOf) (shortage : Shortage) → OperatorMakesActions script w shortage }
{}

/// Whether somebody has a step is known of the world alone; and the turns of all clients, of all
/// repairers and of the sweeper are a round.
pub fn rounds_are_rounds()
    ensures ends { EndsAreKnown }
    ensures rounds { (script : Script) (w : WorldOf) → RoundsAreRounds script w }
{}

/// The first world is reached by no token, and each token whose step leads from a world that is reached
/// to another leads on; the world that is reached stands for the core of its tokens and shortages. A
/// drain of a valid script goes by rounds until nobody has a step, and makes no more than its fuel.
pub fn runs_are_reached()
    ensures tokens { (script : Script) → RunsReach script }
    ensures drains { DrainsOfValidScriptsReach }
{}

/// A world shows what each core shows for which it stands; so after the tokens of a run it shows that
/// run.
pub fn worlds_show()
    ensures { (script : Script) (w : WorldOf) → WorldsShow script w }
{}

/// The first directory agrees with the first tickets of all actors; and where the directory of a world
/// agrees with the tickets of all its actors, it does so after each step. A call's number is how many of
/// its actor's calls ended before it, and between two calls the next number is unused.
pub fn tokens_agree()
    ensures first { FirstTokensAgree }
    ensures stays { WorldsStayAgreed }
{}

/// A call in work is never over: after its last step its actor has none. So its next step is at the
/// directory or at a server, once a coding that is due was made.
pub fn calls_are_under_way()
    ensures { (script : Script) (a : ActorOf) → CallsAreUnderWay script a }
{}

/// The first world is reached by no token, a token whose step leads from one world to another is one more,
/// and some tokens after others are all of them.
pub fn worlds_go_on()
    ensures { (script : Script) → WorldsGoOn script }
{}

/// A drain goes by rounds, fewer than a count of 64 bits holds as long as somebody has a step; where nobody
/// has one it is made.
pub fn drains_go()
    ensures { DrainsOfValidScriptsGo }
{}

/// In a world that is reached, a count of 64 bits holds the steps of each call in work, and one more.
pub fn worlds_make_few_steps()
    ensures { WorldsMakeFewSteps }
{}

/// At a sound directory a sweeper that is busy or finds garbage has fewer steps left after each of its
/// steps, where nobody else makes one.
pub fn sweeps_fall()
    ensures { SweepsFallFrom }
{}
