//! Requests from the bytes of their frames. Memory is taken for a name and for data, once all fields are known to be there.
ghost use Rattle.std.specs.Prelude.{◌≡◌, ◌<◌, ◌^◌, ◌∷◌, length, IfOk};
ghost use Rattle.store_map.specs.Name.{IsName};
ghost use Rattle.store_map.specs.declared.content.Content.TheVariants.{Hex};
ghost use Rattle.session_rules.specs.Fields.{then_end};
ghost use Rattle.session_rules.specs.Requests.{put_fields, get_fields, read_fields, write_fields, stat_fields, delete_fields, lose_fields, rebuild_fields, snap_read_fields, request_of};
ghost use Rattle.frame_bytes.specs.Requests.{IsRead};

use crate::fields::{name_and_numbers, name_field, number_field, only_name, only_server};
use session_rules::Request;
use std::alloc::{AllocError, Global};
use store_map::{Call, Content, HexBytes, Name, NameFault};

// The name that the bytes spell.
fn make_name(alloc: Global, bytes: &[u8]) -> Result<Name, AllocError>
    requires { IsName bytes.now }
    ensures { IfOk result (λ name. name ≡ bytes.now) }
{
    match Name::from_bytes(alloc, bytes) {
        Ok(name) => Ok(name),
        Err(NameFault::OutOfMemory) => Err(AllocError),
        Err(NameFault::Malformed) => unreachable!(),
    }
}

fn make_content(alloc: Global, bytes: &[u8]) -> Result<Content, AllocError>
    requires { length bytes.now < 2 ^ 32 }
    ensures { IfOk result (λ content. content ≡ Hex bytes.now) }
{
    let bytes = Vec::from_slice(alloc, bytes)?;
    Ok(Content::Hex(HexBytes::from_vec(bytes)))
}

// A request with these fields, of each kind that has some.
fn put_of(alloc: Global, fields: &[u8]) -> Result<Option<Request>, AllocError>
    requires { length fields.now < 2 ^ 32 }
    ensures { IsRead (put_fields fields.now) result }
{
    let Some((name, bytes)) = name_field(fields) else {
        return Ok(None);
    };
    let name = make_name(alloc, name)?;
    let content = make_content(alloc, bytes)?;
    Ok(Some(Request::OfMap(Call::Put { name, content })))
}

fn get_of(alloc: Global, fields: &[u8]) -> Result<Option<Request>, AllocError>
    ensures { IsRead (get_fields fields.now) result }
{
    let Some(name) = only_name(fields) else {
        return Ok(None);
    };
    let name = make_name(alloc, name)?;
    Ok(Some(Request::OfMap(Call::Get { name })))
}

fn read_of(alloc: Global, fields: &[u8]) -> Result<Option<Request>, AllocError>
    ensures { IsRead (read_fields fields.now) result }
{
    let Some((name, offset, length)) = name_and_numbers(fields) else {
        return Ok(None);
    };
    let name = make_name(alloc, name)?;
    Ok(Some(Request::OfMap(Call::ReadAt {
        name,
        offset,
        length,
    })))
}

fn write_of(alloc: Global, fields: &[u8]) -> Result<Option<Request>, AllocError>
    requires { length fields.now < 2 ^ 32 }
    ensures { IsRead (write_fields fields.now) result }
{
    let Some((name, rest)) = name_field(fields) else {
        return Ok(None);
    };
    let Some((offset, bytes)) = number_field(rest) else {
        return Ok(None);
    };
    let name = make_name(alloc, name)?;
    let content = make_content(alloc, bytes)?;
    Ok(Some(Request::OfMap(Call::Write {
        name,
        offset,
        content,
    })))
}

fn stat_of(alloc: Global, fields: &[u8]) -> Result<Option<Request>, AllocError>
    ensures { IsRead (stat_fields fields.now) result }
{
    let Some(name) = only_name(fields) else {
        return Ok(None);
    };
    let name = make_name(alloc, name)?;
    Ok(Some(Request::OfMap(Call::Stat { name })))
}

fn delete_of(alloc: Global, fields: &[u8]) -> Result<Option<Request>, AllocError>
    ensures { IsRead (delete_fields fields.now) result }
{
    let Some(name) = only_name(fields) else {
        return Ok(None);
    };
    let name = make_name(alloc, name)?;
    Ok(Some(Request::OfMap(Call::Delete { name })))
}

fn lose_of(servers: u32, fields: &[u8]) -> Option<Request>
    ensures { result ≡ lose_fields servers fields.now }
{
    let server = only_server(servers, fields)?;
    Some(Request::Lose { server })
}

fn rebuild_of(alloc: Global, servers: u32, fields: &[u8]) -> Result<Option<Request>, AllocError>
    ensures { IsRead (rebuild_fields servers fields.now) result }
{
    let Some((name, rest)) = name_field(fields) else {
        return Ok(None);
    };
    let Some((stripe, rest)) = number_field(rest) else {
        return Ok(None);
    };
    let Some(server) = only_server(servers, rest) else {
        return Ok(None);
    };
    let name = make_name(alloc, name)?;
    Ok(Some(Request::Rebuild {
        name,
        stripe,
        server,
    }))
}

fn snap_read_of(alloc: Global, fields: &[u8]) -> Result<Option<Request>, AllocError>
    ensures { IsRead (snap_read_fields fields.now) result }
{
    let Some((name, offset, length)) = name_and_numbers(fields) else {
        return Ok(None);
    };
    let name = make_name(alloc, name)?;
    Ok(Some(Request::SnapRead {
        name,
        offset,
        length,
    }))
}

// A request of a kind that has no fields.
fn alone(fields: &[u8], request: Request) -> Option<Request>
    ensures { result ≡ then_end request fields.now }
{
    if fields.is_empty() {
        Some(request)
    } else {
        None
    }
}

fn by_kind(
    alloc: Global,
    servers: u32,
    kind: u8,
    fields: &[u8],
) -> Result<Option<Request>, AllocError>
    requires { length fields.now < 2 ^ 32 }
    ensures { IsRead (request_of servers (kind ∷ fields.now)) result }
{
    match kind {
        1 => put_of(alloc, fields),
        2 => get_of(alloc, fields),
        3 => read_of(alloc, fields),
        4 => write_of(alloc, fields),
        5 => stat_of(alloc, fields),
        6 => delete_of(alloc, fields),
        7 => Ok(lose_of(servers, fields)),
        8 => rebuild_of(alloc, servers, fields),
        9 => Ok(alone(fields, Request::Snap)),
        10 => snap_read_of(alloc, fields),
        11 => Ok(alone(fields, Request::SnapDrop)),
        12 => Ok(alone(fields, Request::Scrub)),
        13 => Ok(alone(fields, Request::Heal)),
        _ => Ok(None),
    }
}

/// The request that a frame's bytes are, where they are one of a code with so many servers. Its name and
/// its data are in memory of their own.
pub fn request_of(alloc: Global, servers: u32, frame: &[u8]) -> Result<Option<Request>, AllocError>
    requires { length frame.now < 2 ^ 32 }
    ensures { IsRead (request_of servers frame.now) result }
{
    match frame {
        [kind, fields @ ..] => by_kind(alloc, servers, *kind, fields),
        [] => Ok(None),
    }
}
