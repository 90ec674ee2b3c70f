//! What the definitions say, as functions that do nothing and whose contracts are the laws.

ghost use Rattle.store_map.specs.declared.script.Script.{Script};
ghost use Rattle.store_core.specs.HeldLaws.{HoldsInOrder};
ghost use Rattle.store_core.specs.MemoryLaws.{IsHeardWhereTaken};
ghost use Rattle.store_core.specs.PlaceLaws.{ServersCountUp, DirectoryKeepsPlaces};
ghost use Rattle.store_core.specs.ActorLaws.{ActsChangeOnePlace, StepsChangeOneActor};
ghost use Rattle.store_core.specs.Run.{Run};

/// No step at a server lowers its epoch, its count of times down or its count of subchunks taken,
/// while they fit 64 bits, and they still fit.
pub fn servers_count_up()
    ensures { ServersCountUp }
{}

/// At the directory points and versions only come, and each is told as the place at which it stands.
/// The points stay as they are; of a version only its placements and its standing change.
pub fn points_and_versions_are_places()
    ensures { DirectoryKeepsPlaces }
{}

/// A step changes the directory or one server, and one actor.
pub fn steps_change_one_place()
    ensures place { ActsChangeOnePlace }
    ensures actor { (script : Script) (run : Run) → StepsChangeOneActor script run }
{}

/// Want of memory leaves everything as it was at a step that takes memory, and isn't heard at any
/// other.
pub fn want_of_memory_is_heard_where_memory_is_taken()
    ensures { IsHeardWhereTaken }
{}

/// What a server holds stands in rising order, each version once; a chunk that comes or goes
/// changes nothing of the others.
pub fn servers_hold_versions_in_order()
    ensures { HoldsInOrder }
{}
