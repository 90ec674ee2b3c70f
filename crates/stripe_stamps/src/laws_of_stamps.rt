//! What the definitions say, as functions that do nothing and whose contracts are the laws.

ghost use Rattle.store_core.specs.Calls.{Calls};
ghost use Rattle.stripe_stamps.specs.StampLaws.{StampsKeepContents, StampsHoldTheBytesOfTheMap};

/// By the calls that drew them the stamps have the contents of the versions, also in a book without a
/// script.
pub fn stamps_keep_contents()
    ensures { (calls : Calls) → StampsKeepContents calls }
{}

/// The stamps of an object's versions hold the bytes that the plain map has for it.
pub fn stamps_hold_the_bytes_of_the_map()
    ensures { StampsHoldTheBytesOfTheMap }
{}
