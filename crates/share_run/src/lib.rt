//! Files cut into shares, joined from them and mended: the commands of the program `clay_shares` over open files. Before them: the names of the
//! shares in a folder, and the code of a cut.
#![tactic(auto)]

mod checks_of_shares;
mod chosen_helpers;
mod code;
mod cuts_of_files;
mod fill_log;
mod joins_of_shares;
mod laws_of_cuts;
mod mends_of_shares;
mod rebuilds_of_shares;
mod said;
mod serving_shares;
mod share_heads;
mod share_names;
mod share_places;
mod share_status;
mod told_file;

pub use checks_of_shares::check_main;
pub use chosen_helpers::choose_helpers;
pub use code::{CodeAsked, code_for};
pub use cuts_of_files::cut_main;
pub use fill_log::FillLog;
pub use joins_of_shares::join_main;
pub use laws_of_cuts::{cut_shares_join, cut_shares_mend, joined_files_are_right};
pub use mends_of_shares::{MendStop, mend_main};
pub use rebuilds_of_shares::rebuild_main;
pub use said::{ends, ends_short, exit_with, fails};
pub use serving_shares::{serve_check, serve_cut, serve_join, serve_mend, serve_rebuild};
pub use share_heads::{Head, header_of_share, is_of_cut, read_heads, told_header};
pub use share_names::{ShareNames, list_shares, share_path};
pub use share_places::{FilePlace, FilePlaces};
pub use share_status::ShareStatus;
pub use told_file::{Progress, ToldFile};
