//! The lines of scripts: their words, numbers, names and calls, and why a line has no form; and stripes and chunks as lines
//! of hexadecimal digits. Whole scripts stand in the crate above.
#![tactic(auto)]

mod call_words;
mod chunk_entries;
mod content_words;
mod digits;
mod line_fault;
mod number;
mod script_lines;
mod split;
mod stripe_line;

pub use call_words::{read_call, read_name};
pub use chunk_entries::{EntriesFault, read_chunks};
pub use digits::{are_lower_digits, read_digits};
pub use line_fault::FaultKind;
pub use number::{is_number, read_number, small_number};
pub use script_lines::{read_code, read_numbered, read_rebuild, read_token};
pub use split::{is_text, split_at_first};
pub use stripe_line::{StripeFault, chunk_lines, line_of, read_stripe};
