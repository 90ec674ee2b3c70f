//! What the definitions say of whole inputs, as a function that does nothing and whose contract is the law.

ghost use Rattle.frame_bytes.specs.Inputs.{InputsAreRead};

/// A session's frames and its ending are those that are read one after another.
pub fn inputs_are_read()
    ensures { InputsAreRead }
{}
