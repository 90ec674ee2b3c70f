//! The laws, as functions that do nothing and whose contracts are the laws.

ghost use Rattle.std.specs.Prelude.{ℕ};
ghost use Rattle.store_map.specs.declared.script.Script.{Script};
ghost use Rattle.world_laws.specs.World.{WorldOf};
ghost use Rattle.world_laws.specs.Telling.{TokensTellOn};
ghost use Rattle.world_laws.specs.TurnTells.{ClientsTell, RepairersTell};
ghost use Rattle.world_laws.specs.PlaceTells.{SweeperTells, OperatorTells};
ghost use Rattle.world_laws.specs.Traced.{TracesGoOn};
ghost use Rattle.world_laws.specs.RoundTells.{RoundsTell};
ghost use Rattle.world_laws.specs.DrainTells.{DrainsOfValidScriptsTell};

/// A client's turn and a repairer's is one step of the trace: its call's next act, with what the directory
/// or the server answers. An actor without a turn makes none.
pub fn turns_tell()
    ensures clients { (script : Script) (i : ℕ) (w : WorldOf) → ClientsTell script i w }
    ensures repairers { (script : Script) (i : ℕ) (w : WorldOf) → RepairersTell script i w }
{}

/// The sweeper's turn and each action of the operator is one step of the trace.
pub fn sweeps_and_actions_tell()
    ensures sweeper { (script : Script) (w : WorldOf) → SweeperTells script w }
    ensures operator { (script : Script) (w : WorldOf) → OperatorTells script w }
{}

/// Tokens that lead on from where others led make their steps after the steps of those.
pub fn tokens_tell_on()
    ensures { (script : Script) → TokensTellOn script }
{}

/// The first world is reached with an empty trace, and a trace goes on with the steps of the tokens that
/// lead on. At the end the trace and the core are those of the same tokens and shortages.
pub fn traces_go_on()
    ensures { (script : Script) → TracesGoOn script }
{}

/// The steps of all clients' turns, of all repairers' and of the sweeper's are those of a round.
pub fn rounds_tell()
    ensures { (script : Script) (w : WorldOf) → RoundsTell script w }
{}

/// The steps of a drain are those of its rounds, until nobody has a step.
pub fn drains_tell()
    ensures { DrainsOfValidScriptsTell }
{}
