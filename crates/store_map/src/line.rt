//! The lines of a transcript, each kind with its values.
use crate::call_name::{CallName, ClientCall, RepairCall};
use crate::cause::{Cause, RepairResult};
use crate::list_of::ListOf;
use crate::name::Name;
use crate::shown::Shown;

/// `H P CALL REPLY`: at point P the client's call stands with this reply.
pub struct HLine {
    pub point: u64,
    pub call: ClientCall,
    pub reply: Shown,
}

// By hand, since a derived one is proved again in each crate that drops the type.
impl Drop for HLine {
    fn drop(self) {
        let HLine {
            point: _point,
            call: _call,
            reply: _reply,
        } = self;
    }
}

/// `X CALL CAUSE`: the client's call was refused.
pub struct XLine {
    pub call: ClientCall,
    pub cause: Cause,
}

// By hand, since a derived one is proved again in each crate that drops the type.
impl Drop for XLine {
    fn drop(self) {
        let XLine {
            call: _call,
            cause: _cause,
        } = self;
    }
}

/// `R CALL RESULT`: the repairer's call has this result.
pub struct RLine {
    pub call: RepairCall,
    pub result: RepairResult,
}

// By hand, since a derived one is proved again in each crate that drops the type.
impl Drop for RLine {
    fn drop(self) {
        let RLine {
            call: _call,
            result: _result,
        } = self;
    }
}

/// `O CALL`: the call made a step and has no reply.
pub struct OLine {
    pub call: CallName,
}

// By hand, since a derived one is proved again in each crate that drops the type.
impl Drop for OLine {
    fn drop(self) {
        let OLine { call: _call } = self;
    }
}

/// `L NAME LENGTH`: an object at the end, and its length in bytes.
pub struct LLine {
    pub name: Name,
    pub length: u64,
}

// By hand, since a derived one is proved again in each crate that drops the type.
impl Drop for LLine {
    fn drop(self) {
        let LLine {
            name: _name,
            length: _length,
        } = self;
    }
}

/// `G CALL N0 N1 ..`: the subchunks that the call took, one number for each server.
pub struct GLine {
    pub call: CallName,
    pub takes: ListOf<u64>,
}

// By hand, since a derived one is proved again in each crate that drops the type.
impl Drop for GLine {
    fn drop(self) {
        let GLine {
            call: _call,
            takes: _takes,
        } = self;
    }
}

/// `T J TAKEN HELD EPOCH`: server J at the end, with the subchunks that were taken from it, the
/// versions that it holds, and how often it was emptied.
pub struct TLine {
    pub server: u32,
    pub taken: u64,
    pub held: u64,
    pub epoch: u64,
}

// By hand, since a derived one is proved again in each crate that drops the type.
impl Drop for TLine {
    fn drop(self) {
        let TLine {
            server: _server,
            taken: _taken,
            held: _held,
            epoch: _epoch,
        } = self;
    }
}
