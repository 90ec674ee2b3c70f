//! Why the header of a share file is refused.
use clay_aloof::BadAloof;
use thiserror::Error;

/// Why bytes are no header. The causes are tried in this order.
#[derive(Clone, Copy, Debug, PartialEq, Eq, Error)]
pub enum BadHeader {
    #[error("this is no share file")]
    Magic,
    #[error("the share file is of another version")]
    Version,
    #[error("the header's checksum is not that of its bytes")]
    Checksum,
    #[error("{0}")]
    Code(BadAloof),
    #[error("the file's length is above 2^56 bytes")]
    Size,
    #[error("the number of stripes is not that of the file's length")]
    Stripes,
    #[error("there is no share of this number")]
    Share,
}
