//! The names of calls by whose they are.
ghost use Rattle.std.specs.Prelude.{◌≡◌};
ghost use Rattle.world_lines.specs.Names.{name_by};

use store_map::{CallName, ClientCall, RepairCall};

/// Whose calls they are: a script's clients' or its repairers'.
#[derive(Clone, Copy, PartialEq, Eq)]
pub(crate) enum Role {
    Client,
    Repairer,
}

impl Role {
    /// The call of this number of the actor of this number.
    pub(crate) fn call(self, actor: u32, number: u32) -> CallName
        ensures { result ≡ name_by self actor number }
    {
        match self {
            Role::Client => CallName::Client(ClientCall {
                client: actor,
                number,
            }),
            Role::Repairer => CallName::Repairer(RepairCall {
                repairer: actor,
                number,
            }),
        }
    }
}
