//! Servers one after another, without those that are left out.
ghost use Rattle.std.specs.Prelude.{◌≡◌};
ghost use Rattle.store_core.specs.Lists.{is_among};
ghost use Rattle.gathering.specs.CourseServers.{NextIs};

fn is_among(servers: &[u32], server: u32) -> bool
    ensures { result ≡ is_among server servers.now }
{
    servers.contains(&server)
}

/// The first server from `from` on that isn't left out.
#[tactic(auto, using(crate::proofs::Nexts::asked_next, crate::proofs::Nexts::asked_passed))]
pub(crate) fn next_server(left_out: &[u32], from: u32, count: u32) -> Option<u32>
    ensures { NextIs left_out.now count from result }
{
    for server in from..count {
        if !is_among(left_out, server) {
            return Some(server);
        }
    }
    None
}
