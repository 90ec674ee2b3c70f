//! The takes of one call: a count of subchunks for each server.
ghost use Rattle.std.specs.Prelude.{◌≡◌, ◌<◌, nat_lt, length, replicate, slice_get, Some, IfOk};
ghost use Rattle.std.specs.List.{list_any};
ghost use Rattle.store_core.specs.Lists.{change_at};
ghost use Rattle.store_core.specs.Told.{Told};
ghost use Rattle.store_core.specs.Act.{Act, ServerStep};
ghost use Rattle.store_core.specs.Server.{raised_by};
ghost use Rattle.store_core.specs.Step.{take_from};

use std::alloc::{AllocError, Global};
use std::marker::Model;

/// How many subchunks a call has taken from each server, the servers counted from 0. A count stays
/// at the last value of 64 bits.
pub struct Takes {
    counts: Vec<u64>,
}

// By hand, since a derived one is proved again in each crate that drops the type.
impl Drop for Takes {
    fn drop(self) {
        let Takes { counts: _counts } = self;
    }
}

impl Model for Takes {
    ghost use Rattle.std.specs.Prelude.{List, ℕ};

    ghost Value = { List ℕ };

    ghost view = { λ a. a.counts.items };
}

impl Takes {
    /// Of a call that has taken nothing yet, from so many servers.
    pub fn new(alloc: Global, servers: u32) -> Result<Takes, AllocError>
        ensures { IfOk result (λ takes. takes ≡ replicate servers 0) }
    {
        let counts = vec![in alloc; 0; servers as usize]?;
        Ok(Takes { counts })
    }

    /// The server gave so many subchunks more.
    pub fn add(&mut self, server: u32, layers: u64)
        requires { server < length self.old }
        ensures raised { self.new ≡ change_at server (raised_by layers) self.old }
        ensures told { (step : ServerStep) →
            self.new ≡ take_from (Act.AtServer server step) (Told.Given layers) self.old }
    {
        let at = server as usize;
        self.counts[at] = self.counts[at].saturating_add(layers);
    }

    /// How many subchunks the server gave.
    pub fn of(&self, server: u32) -> u64
        requires { server < length self.now }
        ensures { slice_get self.now server ≡ Some result }
    {
        self.counts[server as usize]
    }

    /// Those of all servers, in their order.
    pub fn counts(&self) -> &[u64]
        ensures { result.now ≡ self.now }
    {
        self.counts.as_slice()
    }

    /// Whether a server gave one.
    pub fn any(&self) -> bool
        ensures { result ≡ list_any (nat_lt 0) self.now }
    {
        self.counts.iter().any(|count| 0 < *count)
    }
}
