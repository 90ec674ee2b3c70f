//! Replies beside what lines show: whether they agree.
ghost use Rattle.std.specs.Prelude.{◌≡◌};
ghost use Rattle.std.specs.Option.{option_copied};
ghost use Rattle.hist_rules.specs.RepliesMatch.{same_reply, is_put_or_write, shows_reply};
ghost use Rattle.hist_rules.specs.Named.{is_ok};

use store_map::{Call, Reply, Shown};

// Whether two replies are the same.
fn same_reply(one: &Reply, other: &Reply) -> bool
    ensures { result ≡ same_reply one.now other.now }
{
    match (one, other) {
        (Reply::Done, Reply::Done) => true,
        (Reply::Bytes(one), Reply::Bytes(other)) => one.as_slice() == other.as_slice(),
        (Reply::Length(one), Reply::Length(other)) => *one == *other,
        (Reply::NoSuch, Reply::NoSuch) => true,
        (Reply::OutRange, Reply::OutRange) => true,
        (Reply::TooLarge, Reply::TooLarge) => true,
        _ => false,
    }
}

fn is_ok(reply: &Reply) -> bool
    ensures { result ≡ is_ok reply.now }
{
    matches!(reply, Reply::Done)
}

fn is_put_or_write(call: &Call) -> bool
    ensures { result ≡ is_put_or_write call.now }
{
    matches!(call, Call::Put { .. } | Call::Write { .. })
}

/// Whether what is shown of a call agrees with the map's reply.
pub fn shows_reply(call: Option<&Call>, reply: &Reply, shown: &Shown) -> bool
    ensures { result ≡ shows_reply (option_copied call.entry) reply.now shown.now }
{
    match shown {
        Shown::Reply(printed) => same_reply(reply, printed),
        Shown::Unfinished => match call {
            Some(call) => is_ok(reply) && is_put_or_write(call),
            None => false,
        },
    }
}
