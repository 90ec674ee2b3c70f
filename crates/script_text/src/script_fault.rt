//! The first fault of a text: its line and its kind.
ghost use Rattle.std.specs.Prelude.{◌≡◌};
ghost use Rattle.script_text.specs.FirstFault.{fault_at};

use line_grammar::FaultKind;
use thiserror::Error;

/// The first faulty line, and what is wrong with it.
#[derive(Clone, Copy, PartialEq, Eq, Debug, Error)]
#[error("line {line}: {kind}")]
pub struct ScriptFault {
    /// The line's number, counted from 1. Want of memory has 0.
    pub line: u32,
    pub kind: FaultKind,
}

impl ScriptFault {
    /// The fault of the line with this number.
    pub(crate) fn at(line: u32, kind: FaultKind) -> ScriptFault
        ensures { result ≡ fault_at line kind }
    {
        match kind {
            FaultKind::OutOfMemory => ScriptFault { line: 0, kind },
            _ => ScriptFault { line, kind },
        }
    }
}
