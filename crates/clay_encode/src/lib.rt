//! Encoding: from a stripe to the chunks of its codeword, and from bytes to stripes and back.
#![tactic(auto)]

mod plain_chunks;
mod plain_columns;
mod stripes;

pub use plain_chunks::encode;
pub use plain_columns::zeros;
pub use stripes::{join, split, stripes_are_joined};
