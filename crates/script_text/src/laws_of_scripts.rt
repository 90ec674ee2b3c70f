//! What the definitions say, as functions that do nothing and whose contracts are the laws.

ghost use Rattle.script_text.specs.Laws.{HasCoveredFront, HasFaultlessFront, IsCovered, IsFaultless, IsOneFault, IsOneFront, IsOneScript};

/// Bytes spell one script at most, and so does each front of them up to a line `end`.
pub fn a_text_spells_one_script()
    ensures whole { IsOneScript }
    ensures front { IsOneFront }
{}

/// Bytes spell a script or have a fault, never both, and have one first fault at most. The same
/// holds of their front up to the first line `end`.
pub fn a_text_is_a_script_or_has_one_fault()
    ensures faultless { IsFaultless }
    ensures faultless_front { HasFaultlessFront }
    ensures one { IsOneFault }
    ensures covered { IsCovered }
    ensures covered_front { HasCoveredFront }
{}
