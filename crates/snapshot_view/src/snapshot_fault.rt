use dir_tickets::Ticket;

/// Why no snapshot was taken.
#[derive(Clone, Copy, PartialEq, Eq, Debug)]
pub enum SnapFault {
    /// There are so many objects, and fewer tickets.
    TooMany { objects: u64 },
    OutOfMemory,
}

/// No snapshot was taken: the tickets, as many as came, and why. They have to be spent.
pub struct SnapRefused {
    pub tickets: Vec<Ticket>,
    pub why: SnapFault,
}
