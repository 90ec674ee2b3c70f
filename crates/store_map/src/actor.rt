//! Actors, the tokens of a schedule, points and versions.

/// Who makes a step of a run. Clients and repairers are numbered from 0 in the script's order.
#[derive(Clone, Copy, PartialEq, Eq, Debug)]
pub enum Actor {
    Client(u32),
    Repairer(u32),
    Sweeper,
    Operator,
}

/// A line of a script's schedule.
#[derive(Clone, Copy, PartialEq, Eq)]
pub enum Token {
    /// The client makes one step.
    Client(u32),
    /// The repairer makes one step.
    Repairer(u32),
    /// The sweeper makes one step.
    Sweep,
    /// The operator empties the server.
    Wipe(u32),
    /// The operator makes the server away, in scripts of form 2.
    Down(u32),
    /// The operator makes the server present, in scripts of form 2.
    Up(u32),
    /// The operator gives up the client's pass, if it has one.
    ReapClient(u32),
    /// The operator gives up the repairer's pass, if it has one.
    ReapRepairer(u32),
    /// All actors take turns until none has a step.
    Drain,
}

/// A place in the directory's history, counted from 0.
#[derive(Clone, Copy, PartialEq, Eq, PartialOrd, Ord)]
pub struct Point(pub u64);

/// A stripe's version, numbered from 0 in the order in which the directory drew them.
#[derive(Clone, Copy, PartialEq, Eq, PartialOrd, Ord, Debug)]
pub struct Version(pub u64);
