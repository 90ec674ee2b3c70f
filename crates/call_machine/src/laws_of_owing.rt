//! The law, as a function that does nothing and whose contract is the law.

ghost use Rattle.call_machine.specs.OwesLaws.{CallsKeepOwing};

/// A client's call owes nothing before its look; a look that pins stripes makes it owe their bytes at its point;
/// and each later step and coding keeps what it owes, up to the bytes that it is served.
pub fn calls_keep_owing()
    ensures { CallsKeepOwing }
{}
