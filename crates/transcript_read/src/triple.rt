//! Servers that lacked their chunk, races, and names of calls as fields of lines.
ghost use Rattle.std.specs.Prelude.{◌++◌, codes, decimal};
ghost use Rattle.store_map.specs.Triples.{placement_text, found_text, triple_text};
ghost use Rattle.store_map.specs.CallNames.{client_text, repair_text, call_text};
ghost use Rattle.transcript_read.specs.Values.{IsClientCall, IsRepairCall, IsCallName, IsPlacement, IsFound, IsTriple};
ghost use Rattle.transcript_read.specs.Reasons.{IsPair, pair_text};
ghost use Rattle.transcript_read.specs.Reads.{Reads};

use crate::field::{Field, Unread, behind, first_field};
use std::alloc::Global;
use store_map::{CallName, ClientCall, Found, Placement, RepairCall, Triple};

impl Field for Placement {
    ghost IsValue = { IsPlacement };

    ghost spelling = { placement_text };

    fn read(alloc: Global, text: &[u8]) -> Result<Placement, Unread> {
        match behind(b"u", text) {
            Some(downs) => Ok(Placement::Skipped(u64::read(alloc, downs)?)),
            None => Ok(Placement::At(u64::read(alloc, text)?)),
        }
    }
}

impl Field for Found {
    ghost IsValue = { IsFound };

    ghost spelling = { found_text };

    fn read(alloc: Global, text: &[u8]) -> Result<Found, Unread> {
        match behind(b"a", text) {
            Some(downs) => {
                let downs = u64::read(alloc, downs)?;
                Ok(Found::Away { downs })
            }
            None => {
                let epoch = u64::read(alloc, text)?;
                Ok(Found::Absent { epoch })
            }
        }
    }
}

impl Field for Triple {
    ghost IsValue = { IsTriple };

    ghost spelling = { triple_text };

    fn read(alloc: Global, text: &[u8]) -> Result<Triple, Unread> {
        let (server, rest) = first_field(alloc, b'/', text)?;
        let (placed, rest) = first_field(alloc, b'/', rest)?;
        let found = Found::read(alloc, rest)?;
        Ok(Triple {
            server,
            placed,
            found,
        })
    }
}

impl Field for (u64, u64) {
    ghost IsValue = { IsPair };

    ghost spelling = { pair_text };

    fn read(alloc: Global, text: &[u8]) -> Result<(u64, u64), Unread> {
        let (looked_at, rest) = first_field(alloc, b'/', text)?;
        let newer = u64::read(alloc, rest)?;
        Ok((looked_at, newer))
    }
}

impl Field for ClientCall {
    ghost IsValue = { IsClientCall };

    ghost spelling = { client_text };

    fn read(alloc: Global, text: &[u8]) -> Result<ClientCall, Unread> {
        let Some(numbers) = behind(b"c", text) else {
            return Err(Unread::Syntax);
        };
        let (client, rest) = first_field(alloc, b'.', numbers)?;
        let number = u32::read(alloc, rest)?;
        Ok(ClientCall { client, number })
    }
}

impl Field for RepairCall {
    ghost IsValue = { IsRepairCall };

    ghost spelling = { repair_text };

    fn read(alloc: Global, text: &[u8]) -> Result<RepairCall, Unread> {
        let Some(numbers) = behind(b"r", text) else {
            return Err(Unread::Syntax);
        };
        let (repairer, rest) = first_field(alloc, b'.', numbers)?;
        let number = u32::read(alloc, rest)?;
        Ok(RepairCall { repairer, number })
    }
}

impl Field for CallName {
    ghost IsValue = { IsCallName };

    ghost spelling = { call_text };

    fn read(alloc: Global, text: &[u8]) -> Result<CallName, Unread> {
        match behind(b"c", text) {
            Some(_) => Ok(CallName::Client(ClientCall::read(alloc, text)?)),
            None => Ok(CallName::Repairer(RepairCall::read(alloc, text)?)),
        }
    }
}
