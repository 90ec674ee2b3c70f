//! What the definitions say, as a function that does nothing and whose contract is the law.

ghost use Rattle.store_map.specs.declared.script.Script.{Script};
ghost use Rattle.store_core.specs.Core.{Core};
ghost use Rattle.world_lines.specs.Shown.{IsShownByLists};

/// The seven lists, of what a core of a script holds, are the transcript that it shows.
pub fn lists_are_shown()
    ensures { (script : Script) (core : Core) → IsShownByLists script core }
{}
