//! What is said of shares on standard error.

use crate::share_file::ShareFile;
use std::fmt::Display;
use std::io::Eprint;

/// Says something of the share of a number.
pub(crate) fn tell_share<R: Eprint, W: Display + Drop>(rt: &R, stem: &str, number: usize, what: W) {
    let _said = eprintln!(rt; "clay_shares: {stem}.{number:02}.clay: {what}");
}

/// Says that a share hasn't a good block, or part, of a stripe.
pub(crate) fn tell_lack<R: Eprint>(rt: &R, stem: &str, number: usize, what: &str, stripe: u64) {
    tell_share(
        rt,
        stem,
        number,
        format_args!("its {what} of stripe {stripe} is rotten or missing"),
    );
}

/// Says which shares are missing, but for one that is known to be, where it wasn't said why.
pub(crate) fn tell_missing<R: Eprint>(
    rt: &R,
    stem: &str,
    sources: &[ShareFile<R>],
    known: Option<usize>,
) {
    for (number, source) in sources.iter().enumerate() {
        if source.is_missing() && !source.is_told() && known != Some(number) {
            tell_share(rt, stem, number, "it is missing");
        }
    }
}
