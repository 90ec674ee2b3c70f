//! The next position of a course, by the servers that are missing.
ghost use Rattle.std.specs.Prelude.{◌≡◌, ℕ, ◌-◌, ◌<◌, ◌≤◌, length};
ghost use Rattle.store_core.specs.Told.{Told};
ghost use Rattle.gathering.specs.Positions.{IsPlaced};
ghost use Rattle.gathering.specs.Reaching.{GoesToWhole, GoesToRepair, GoesToMake, GoesToLook, GoesToFetch};
ghost use Rattle.gathering.specs.Hearing.{IsAsking, IsLate, IsNoTarget, KeepsAim, Hears, HearsMissing, or_too_many};

use crate::asked_servers::next_server;
use crate::ending::Ending;
use clay_grid::Geometry;
use store_map::Found;

/// Where a course stands: which server is asked for what, or how the gathering has ended. The servers
/// left to ask are those behind the one that is asked.
#[derive(Clone, Copy, PartialEq, Eq)]
pub enum Position {
    /// For the wanted layers. It is the one at this place of those that the first stage asks.
    Fetch {
        at: usize,
    },
    /// Whether it has its chunk. Those left are none of the first stage's.
    Look {
        server: u32,
    },
    /// For the repair layers of the one missing chunk. Those left aren't missing.
    Repair {
        server: u32,
    },
    /// For its whole chunk, of which so many are wanted after this one. Those left aren't among the
    /// first `counted` missing ones.
    Whole {
        server: u32,
        wanted: u32,
        counted: usize,
    },
    /// Whether the target of a rebuild has its chunk. All others are left.
    Target {
        server: u32,
    },
    /// All parts have come.
    HasBytes,
    /// It has ended without its bytes.
    Ended(Ending),
}

// Whole chunks, from a server on, until so many more are there.
#[tactic(auto, using(crate::proofs::Moves::whole_done, crate::proofs::Moves::whole_end, crate::proofs::Moves::whole_next))]
fn on_whole(g: Geometry, gone: &[u32], from: u32, wanted: u32) -> Position
    requires { wanted ≤ g.data_count }
    ensures stage { GoesToWhole g gone.now from wanted result }
    ensures late { IsLate result }
    ensures placed { (first all : ℕ) → length gone.now ≤ all → IsPlaced g first all result }
{
    if wanted == 0 {
        return Position::HasBytes;
    }
    match next_server(gone, from, g.n()) {
        Some(server) => Position::Whole {
            server,
            wanted: wanted - 1,
            counted: gone.len(),
        },
        None => Position::Ended(Ending::TooMany),
    }
}

// The repair layers of the one missing chunk, from a server on.
#[tactic(auto, using(crate::proofs::Moves::repair_end, crate::proofs::Moves::repair_next))]
fn on_repair(g: Geometry, gone: &[u32], from: u32) -> Position
    requires { length gone.now ≡ 1 }
    ensures stage { GoesToRepair g gone.now from result }
    ensures late { IsLate result }
    ensures placed { (first : ℕ) → IsPlaced g first (length gone.now) result }
{
    match next_server(gone, from, g.n()) {
        Some(server) => Position::Repair { server },
        None => Position::HasBytes,
    }
}

// After each server was asked: nothing, one chunk or more are to be made.
#[tactic(auto, using(crate::proofs::Moves::make_none, crate::proofs::Moves::make_one, crate::proofs::Moves::make_more))]
fn make(g: Geometry, gone: &[u32]) -> Position
    ensures stage { GoesToMake g gone.now result }
    ensures late { IsLate result }
    ensures placed { (first : ℕ) → IsPlaced g first (length gone.now) result }
{
    if gone.is_empty() {
        return Position::HasBytes;
    }
    if gone.len() == 1 {
        return on_repair(g, gone, 0);
    }
    on_whole(g, gone, 0, g.k())
}

// Whether they have their chunks: the servers that weren't asked at first, from one on.
#[tactic(auto, using(crate::proofs::Moves::look_end, crate::proofs::Moves::look_next))]
fn on_look(g: Geometry, first: &[u32], gone: &[u32], from: u32) -> Position
    ensures stage { GoesToLook g first.now gone.now from result }
    ensures late { IsLate result }
    ensures placed { (first : ℕ) → IsPlaced g first (length gone.now) result }
{
    match next_server(first, from, g.n()) {
        Some(server) => Position::Look { server },
        None => make(g, gone),
    }
}

/// The wanted layers, from the first stage's servers from this place on.
#[tactic(auto, using(crate::proofs::Moves::fetch_next, crate::proofs::Moves::fetch_done, crate::proofs::Moves::fetch_look))]
pub(crate) fn on_fetch(g: Geometry, first: &[u32], at: usize, gone: &[u32]) -> Position
    ensures stage { GoesToFetch g first.now at gone.now result }
    ensures late { IsNoTarget result }
    ensures placed { IsPlaced g (length first.now) (length gone.now) result }
{
    if at < first.len() {
        return Position::Fetch { at };
    }
    if gone.is_empty() {
        return Position::HasBytes;
    }
    on_look(g, first, gone, 0)
}

/// After a part was given.
#[tactic(auto, using(crate::proofs::Keeping::late_keeps, crate::proofs::Keeping::fetch_keeps, crate::proofs::Keeping::same_keeps, crate::proofs::Keeping::asks_on, crate::proofs::Keeping::same_asks, crate::proofs::Heard::given_fetch, crate::proofs::Heard::given_repair, crate::proofs::Heard::given_whole, crate::proofs::Heard::given_short_look, crate::proofs::Heard::given_short_target, crate::proofs::Heard::over_bytes, crate::proofs::Heard::over_ended))]
pub(crate) fn after_given(g: Geometry, p: Position, first: &[u32], gone: &[u32]) -> Position
    requires { IsPlaced g (length first.now) (length gone.now) p }
    ensures asks { IsAsking result → IsAsking p }
    ensures stage { (layers : ℕ) → Hears g first.now gone.now p (Told.Given layers) result }
    ensures aim { KeepsAim p result }
    ensures placed { IsPlaced g (length first.now) (length gone.now) result }
{
    let _ = g.n();
    match p {
        Position::Fetch { at } => on_fetch(g, first, at + 1, gone),
        Position::Repair { server } => on_repair(g, gone, server + 1),
        Position::Whole {
            server,
            wanted,
            counted,
        } => on_whole(g, &gone[..counted], server + 1, wanted),
        Position::Look { .. } | Position::Target { .. } => Position::Ended(Ending::Short),
        Position::HasBytes | Position::Ended(_) => p,
    }
}

/// After a server said that it has its chunk.
#[tactic(auto, using(crate::proofs::Keeping::late_keeps, crate::proofs::Keeping::same_keeps, crate::proofs::Keeping::asks_on, crate::proofs::Keeping::same_asks, crate::proofs::Heard::here_look, crate::proofs::Heard::here_target, crate::proofs::Heard::here_short_fetch, crate::proofs::Heard::here_short_repair, crate::proofs::Heard::here_short_whole, crate::proofs::Heard::over_bytes, crate::proofs::Heard::over_ended))]
pub(crate) fn after_here(g: Geometry, p: Position, first: &[u32], gone: &[u32]) -> Position
    requires { IsPlaced g (length first.now) (length gone.now) p }
    ensures asks { IsAsking result → IsAsking p }
    ensures stage { Hears g first.now gone.now p Told.Here result }
    ensures aim { KeepsAim p result }
    ensures placed { IsPlaced g (length first.now) (length gone.now) result }
{
    let _ = g.n();
    match p {
        Position::Look { server } => on_look(g, first, gone, server + 1),
        Position::Target { .. } => Position::Ended(Ending::AtTarget),
        Position::Fetch { .. } | Position::Repair { .. } | Position::Whole { .. } => {
            Position::Ended(Ending::Short)
        }
        Position::HasBytes | Position::Ended(_) => p,
    }
}

// This position, unless more servers are missing than there are parity chunks.
#[tactic(auto, using(crate::proofs::Keeping::too_many, crate::proofs::Keeping::not_too_many))]
fn or_too_many(g: Geometry, gone: &[u32], next: Position) -> Position
    ensures value { result ≡ or_too_many g gone.now next }
    ensures room { IsAsking result → length gone.now ≤ g.parity_count }
    ensures late { IsLate next → IsLate result }
    ensures no_target { IsNoTarget next → IsNoTarget result }
    ensures placed { (first all : ℕ) → IsPlaced g first all next → IsPlaced g first all result }
{
    if gone.len() > g.m() as usize {
        Position::Ended(Ending::TooMany)
    } else {
        next
    }
}

/// After a server was found missing, the last of `gone`.
#[tactic(auto, using(crate::proofs::Keeping::late_keeps, crate::proofs::Keeping::fetch_keeps, crate::proofs::Missed::miss_fetch, crate::proofs::Missed::miss_look, crate::proofs::Missed::miss_repair, crate::proofs::Missed::miss_whole, crate::proofs::Missed::miss_absent, crate::proofs::Missed::miss_away))]
pub(crate) fn after_missing(
    g: Geometry,
    p: Position,
    first: &[u32],
    gone: &[u32],
    found: Found,
) -> Position
    requires asking { IsAsking p }
    requires some { 0 < length gone.now }
    requires placed { IsPlaced g (length first.now) (length gone.now - 1) p }
    ensures room { IsAsking result → length gone.now ≤ g.parity_count }
    ensures stage { HearsMissing g first.now gone.now p found result }
    ensures aim { KeepsAim p result }
    ensures placed { IsPlaced g (length first.now) (length gone.now) result }
{
    let _ = g.n();
    match p {
        Position::Fetch { at } => or_too_many(g, gone, on_fetch(g, first, at + 1, gone)),
        Position::Look { server } => or_too_many(g, gone, on_look(g, first, gone, server + 1)),
        Position::Repair { .. } => or_too_many(g, gone, on_whole(g, gone, 0, g.k())),
        Position::Whole {
            server,
            wanted,
            counted,
        } => {
            let next = on_whole(g, &gone[..counted], server + 1, wanted + 1);
            or_too_many(g, gone, next)
        }
        Position::Target { .. } => match found {
            Found::Absent { .. } => on_look(g, first, gone, 0),
            Found::Away { downs } => Position::Ended(Ending::TargetAway { downs }),
        },
        Position::HasBytes | Position::Ended(_) => unreachable!(),
    }
}
