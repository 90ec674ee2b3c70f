//! The laws, as functions that do nothing and whose contracts are the laws.

ghost use Rattle.store_map.specs.declared.script.Script.{Script};
ghost use Rattle.store_world.specs.ServeLaws.{HistoriesGrow, ClientsGoOnServing, TurnsKeepServing, ServedIsOwed};
ghost use Rattle.store_world.specs.WorldLaws.{WorldsAreOfMap, WorldsKeepServing};
ghost use Rattle.store_world.specs.WorldPins.{WorldsServeAtPins};

/// Steps at the directory, turns of actors and those of the sweeper add points to the history and take
/// none away.
pub fn histories_grow()
    ensures { HistoriesGrow }
{}

/// A client before its first call serves what its looks have pinned, and it goes on so whatever others do.
pub fn clients_go_on_serving()
    ensures { (script : Script) → ClientsGoOnServing script }
{}

/// At a sound directory with the bytes of the map, whose stamps have the contents, a client's turn keeps it
/// that what its calls read is the map's reply at the points of their looks. Such is the directory of each
/// world that is reached, whose stamps have the contents; so it is kept there.
pub fn turns_keep_serving()
    ensures turns { TurnsKeepServing }
    ensures directories { WorldsAreOfMap }
    ensures worlds { WorldsKeepServing }
{}

/// At the end of a run the bytes that each call was served are the map's reply at its point.
pub fn served_is_owed()
    ensures { ServedIsOwed }
{}

/// A call that a world holds and that was answered was served at its pinned point, if it has one, where tokens
/// of a valid script reach the world.
pub fn worlds_serve_at_pins()
    ensures { WorldsServeAtPins }
{}
