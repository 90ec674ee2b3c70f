//! What the definitions of frames say, as functions that do nothing and whose contracts are the laws.

ghost use Rattle.frame_bytes.specs.Cuts.{InputsAreCut, CutsAreTheOnlyOnes};
ghost use Rattle.frame_bytes.specs.Endings.{InputsEnd};
ghost use Rattle.frame_bytes.specs.Sent.{RequestsAreRead, RequestsAreSent};

/// What a session reads is cut into frames, and no whole frame stands first in what is left.
pub fn inputs_are_cut()
    ensures { InputsAreCut }
{}

/// No other cut into frames has that property.
pub fn cuts_are_the_only_ones()
    ensures { CutsAreTheOnlyOnes }
{}

/// When each ending of an input comes, by what is left behind its frames.
pub fn inputs_end()
    ensures { InputsEnd }
{}

/// A request that is written into a frame field by field is read from it.
pub fn requests_are_read()
    ensures { RequestsAreRead }
{}

/// What is read as a request was written so, field by field, and nothing stands behind it.
pub fn requests_are_sent()
    ensures { RequestsAreSent }
{}
