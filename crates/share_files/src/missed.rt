//! Which shares lack blocks.
ghost use Rattle.std.specs.Prelude.{◌≡◌, ◌<◌, ℕ, None, length, slice_index_or};
ghost use Rattle.share_format.specs.Joined.{is_lost};
ghost use Rattle.share_files.specs.Missed.{missed_after};

// The first stripe at which a share's block was missed, after one more.
fn note(before: Option<u64>, stripe: u64, lost: bool) -> Option<u64>
    ensures { result ≡ missed_after before stripe lost }
{
    match before {
        Some(first) => Some(first),
        None if lost => Some(stripe),
        None => None,
    }
}

/// No share missed any.
pub(crate) fn forget(missed: &mut [Option<u64>])
    ensures { (c : ℕ) → slice_index_or missed.new c None ≡ None }
{
    missed.fill(None);
}

/// Notes the stripe at each share whose block is missing, and missed none before.
pub(crate) fn note_missed(blocks: &[Option<Vec<u8>>], stripe: u64, missed: &mut [Option<u64>])
    requires { length missed.old ≡ length blocks.now }
    ensures { (c : ℕ) → c < length blocks.now → slice_index_or missed.new c None ≡ missed_after (slice_index_or missed.old c None) stripe (is_lost blocks.now c) }
{
    for share in 0..blocks.len() {
        missed[share] = note(missed[share], stripe, blocks[share].is_none());
    }
}
