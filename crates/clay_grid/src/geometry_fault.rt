//! Why the numbers of a code are refused.
ghost use Rattle.std.specs.Prelude.{◌≡◌};
ghost use Rattle.clay_grid.specs.Limits.{fault_number};

use thiserror::Error;

/// Why a geometry is refused. The limits are tried in this order.
#[derive(Clone, Copy, Debug, PartialEq, Eq, Error)]
pub enum BadGeometry {
    #[error("there are fewer than 2 data chunks")]
    DataCount,
    #[error("there are not 2 to 8 parity chunks")]
    ParityCount,
    #[error("there are more than 1024 layers")]
    Layers,
    #[error("a subchunk has not 1 to 65536 bytes")]
    Width,
    #[error("a chunk has more than 1048576 bytes")]
    ChunkSize,
}

impl BadGeometry {
    /// The fault's number, for callers that have no names: its place in the order of the limits,
    /// counted from 1.
    pub fn number(self) -> u8
        ensures { result ≡ fault_number self }
    {
        match self {
            BadGeometry::DataCount => 1,
            BadGeometry::ParityCount => 2,
            BadGeometry::Layers => 3,
            BadGeometry::Width => 4,
            BadGeometry::ChunkSize => 5,
        }
    }
}
