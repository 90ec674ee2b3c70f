//! Where a call in work goes on: at the directory, at a server, with a coder, or nowhere.

/// Where a call has to go on.
#[derive(Clone, Copy, PartialEq, Eq)]
pub enum Need {
    /// At the directory.
    Directory,
    /// At the server of this number.
    Server(u32),
    /// With a coder. It makes no step.
    Coder,
    /// Nowhere: it has come to its end.
    Finished,
}
