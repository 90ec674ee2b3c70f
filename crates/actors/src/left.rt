//! Whether an actor has a step.
ghost use Rattle.std.specs.Prelude.{◌≡◌, ◌&&◌, not, nat_lt};
ghost use Rattle.store_core.specs.Work.{is_abandoned};

/// Whether an actor that has so many calls left, and has made so many steps in the next one, has a step
/// under this limit of steps for the last one.
pub(crate) fn has_step(left: usize, limit: Option<u32>, steps: u64) -> bool
    ensures { result ≡ (nat_lt 0 left && not (is_abandoned limit left steps)) }
{
    match limit {
        Some(limit) => left > 0 && (left != 1 || steps < u64::from(limit)),
        None => left > 0,
    }
}
