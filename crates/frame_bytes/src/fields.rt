//! The fields of a request, read from the left. They take no memory.
ghost use Rattle.std.specs.Prelude.{◌≡◌, ◌≤◌, length, IfSome, IfNone};
ghost use Rattle.store_map.specs.Name.{IsName};
ghost use Rattle.frame_bytes.specs.Requests.{BeginsWithName, BeginsWithNoName, BeginsWithNumber, BeginsWithNoNumber, IsNameAlone, IsNoNameAlone, AreNameAndNumbers, AreNoNameAndNumbers, IsServerAlone, IsNoServerAlone};

use byteorder::{BigEndian, ByteOrder};
use store_map::is_name;

/// A name that stands first, and what follows it.
pub(crate) fn name_field(fields: &[u8]) -> Option<(&[u8], &[u8])>
    ensures some { IfSome result (λ found. BeginsWithName fields.now found.0.now found.1.now) }
    ensures name { IfSome result (λ found. IsName found.0.now) }
    ensures length { IfSome result (λ found. length found.1.now ≤ length fields.now) }
    ensures none { IfNone result (BeginsWithNoName fields.now) }
{
    let [count, bytes @ ..] = fields else {
        return None;
    };
    let count = usize::from(*count);
    if bytes.len() < count {
        return None;
    }
    let (name, rest) = bytes.split_at(count);
    if !is_name(name) {
        return None;
    }
    Some((name, rest))
}

/// A number that stands first, and what follows it.
pub(crate) fn number_field(fields: &[u8]) -> Option<(u32, &[u8])>
    ensures some { IfSome result (λ found. BeginsWithNumber fields.now found.0 found.1.now) }
    ensures length { IfSome result (λ found. length found.1.now ≤ length fields.now) }
    ensures none { IfNone result (BeginsWithNoNumber fields.now) }
{
    if fields.len() < 4 {
        return None;
    }
    Some((BigEndian::read_u32(fields), &fields[4..]))
}

/// A name that nothing follows.
pub(crate) fn only_name(fields: &[u8]) -> Option<&[u8]>
    ensures some { IfSome result (λ name. IsNameAlone fields.now name.now) }
    ensures name { IfSome result (λ name. IsName name.now) }
    ensures none { IfNone result (IsNoNameAlone fields.now) }
{
    let (name, rest) = name_field(fields)?;
    if !rest.is_empty() {
        return None;
    }
    Some(name)
}

/// A name and two numbers that nothing follows.
pub(crate) fn name_and_numbers(fields: &[u8]) -> Option<(&[u8], u32, u32)>
    ensures some { IfSome result (λ found. AreNameAndNumbers fields.now found.0.now found.1 found.2) }
    ensures name { IfSome result (λ found. IsName found.0.now) }
    ensures none { IfNone result (AreNoNameAndNumbers fields.now) }
{
    let (name, rest) = name_field(fields)?;
    let (first, rest) = number_field(rest)?;
    let (second, rest) = number_field(rest)?;
    if !rest.is_empty() {
        return None;
    }
    Some((name, first, second))
}

/// The number of one of so many servers, which nothing follows.
pub(crate) fn only_server(servers: u32, fields: &[u8]) -> Option<u32>
    ensures some { IfSome result (IsServerAlone servers fields.now) }
    ensures none { IfNone result (IsNoServerAlone servers fields.now) }
{
    let (server, rest) = number_field(fields)?;
    if server >= servers {
        return None;
    }
    if !rest.is_empty() {
        return None;
    }
    Some(server)
}
