//! The names of calls in lines.
ghost use Rattle.std.specs.Prelude.{Some};
ghost use Rattle.store_map.specs.CallNames.{client_text, repair_text, call_text};

use std::fmt;

/// A client's call: the client, and the call's place among its calls. Both are counted from 0, and
/// the call is printed `cI.N`.
#[derive(Clone, Copy, PartialEq, Eq)]
pub struct ClientCall {
    pub client: u32,
    pub number: u32,
}

/// A repairer's call, counted likewise. It is printed `rI.N`.
#[derive(Clone, Copy, PartialEq, Eq)]
pub struct RepairCall {
    pub repairer: u32,
    pub number: u32,
}

/// A call of either.
#[derive(Clone, Copy, PartialEq, Eq)]
pub enum CallName {
    Client(ClientCall),
    Repairer(RepairCall),
}

impl fmt::Display for ClientCall {
    ghost output = { λ call. Some (client_text call) };

    fn fmt<W: fmt::Write>(&self, f: &mut fmt::Formatter<W>) -> fmt::Result {
        write!(f, "c{}.{}", self.client, self.number)
    }
}

impl fmt::Display for RepairCall {
    ghost output = { λ call. Some (repair_text call) };

    fn fmt<W: fmt::Write>(&self, f: &mut fmt::Formatter<W>) -> fmt::Result {
        write!(f, "r{}.{}", self.repairer, self.number)
    }
}

impl fmt::Display for CallName {
    ghost output = { λ call. Some (call_text call) };

    fn fmt<W: fmt::Write>(&self, f: &mut fmt::Formatter<W>) -> fmt::Result {
        match self {
            CallName::Client(call) => write!(f, "{call}"),
            CallName::Repairer(call) => write!(f, "{call}"),
        }
    }
}
