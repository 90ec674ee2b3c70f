//! The helpers' parts of a stripe, read from their shares.
ghost use Rattle.std.specs.Prelude.{◌≡◌, ◌+◌, ◌^◌, ◌<◌, ℕ, List, None, true, is_some, map, length, IfOk, IfErr, IfSome, OnOk, IsErrOf};
ghost use Rattle.clay_aloof.specs.Shape.{all_chunks};
ghost use Rattle.clay_aloof.specs.Repair.{part_bytes};
ghost use Rattle.file_bytes.specs.Places.{Shows, FailsIn};
ghost use Rattle.share_format.specs.Blocks.{block_length};
ghost use Rattle.share_format.specs.Mend.{block_ranges};
ghost use Rattle.share_format.specs.Shares.{block_start};
ghost use Rattle.share_files.specs.Seen.{seen, Show};
ghost use Rattle.share_mends.specs.Spans.{IsMendPlan};
ghost use Rattle.share_mends.specs.Parts.{piece_in};
ghost use Rattle.share_mends.specs.Asked.{helps, GivesIf, AreAsked, FailsAt, NoReadFails};
ghost use Rattle.share_mends.specs.Gathered.{HasPart, NamesPart, AreParts, ArePartsOf, NamesFirstOf};

use crate::mend_fault::{MendFault, RottenPart};
use crate::parts::read_part;
use crate::spans::MendPlan;
use crc64::Crc64;
use file_bytes::SourceAt;
use share_files::BlockFault;
use std::alloc::Global;

// The part of a share of a stripe where the share helps, and else none.
fn part_of<S: SourceAt>(
    alloc: Global,
    crc: &Crc64,
    source: &mut S,
    plan: &MendPlan,
    rooms: &mut Vec<Vec<u8>>,
    stripe: u64,
    share: u32,
    help: bool,
) -> Result<Option<Vec<u8>>, MendFault>
    requires plan { IsMendPlan plan.now }
    requires place { block_start plan.now.geometry stripe + block_length plan.now.geometry < 2 ^ 64 }
    ensures there { IfOk result (λ part. is_some part ≡ help) }
    ensures long { IfOk result (λ part. IfSome part (λ v. length v.items ≡ part_bytes plan.now.geometry)) }
    ensures good { (file : List ℕ) → Shows file (S.given source.new) (S.ends source.new) → IfOk result (HasPart plan.now.geometry plan.now.lost (piece_in plan.now.geometry plan.now.lost stripe file)) }
    ensures rotten { (file : List ℕ) → Shows file (S.given source.new) (S.ends source.new) → IfErr result (NamesPart plan.now.geometry plan.now.lost help share stripe (piece_in plan.now.geometry plan.now.lost stripe file)) }
    ensures shown { (file : List ℕ) → Shows file (S.given source.new) (S.ends source.new) → Shows file (S.given source.old) (S.ends source.old) }
    ensures given { OnOk result (GivesIf help (S.given source.old) (block_ranges plan.now.geometry plan.now.lost stripe) (S.given source.new)) }
    ensures on { OnOk result (S.ends source.new ≡ S.ends source.old) }
    ensures unwritten { IsErrOf result MendFault.WriteFault → ⊥ }
    ensures cause { IsErrOf result MendFault.ReadFault → (help ≡ true) × FailsIn (block_start plan.now.geometry stripe) (block_length plan.now.geometry) (S.failed source.old) (S.failed source.new) }
    ensures steady { (IsErrOf result MendFault.ReadFault → ⊥) → S.failed source.new ≡ S.failed source.old }
{
    if !help {
        return Ok(None);
    }
    match read_part(alloc, crc, source, plan, rooms, stripe) {
        Ok(Some(part)) => Ok(Some(part)),
        Ok(None) => Err(MendFault::Rotten(RottenPart { share, stripe })),
        Err(BlockFault::ReadFault) => Err(MendFault::ReadFault),
        Err(BlockFault::OutOfMemory) => Err(MendFault::OutOfMemory),
    }
}

/// Each helper's part of a stripe, and none for each other share.
pub(crate) fn read_parts<S: SourceAt>(
    alloc: Global,
    crc: &Crc64,
    sources: &mut [S],
    plan: &MendPlan,
    helpers: &[bool],
    rooms: &mut Vec<Vec<u8>>,
    stripe: u64,
) -> Result<Vec<Option<Vec<u8>>>, MendFault>
    requires plan { IsMendPlan plan.now }
    requires shares { length sources.old ≡ all_chunks plan.now.geometry }
    requires marks { length helpers.now ≡ all_chunks plan.now.geometry }
    requires place { block_start plan.now.geometry stripe + block_length plan.now.geometry < 2 ^ 64 }
    ensures parts { IfOk result (λ parts. AreParts plan.now.geometry helpers.now (all_chunks plan.now.geometry) parts.items) }
    ensures good { (files : List (List ℕ)) → Show (map (λ s. seen (S.given s) (S.ends s) (S.failed s)) sources.new) files → IfOk result (λ parts. ArePartsOf plan.now.geometry plan.now.lost files stripe (all_chunks plan.now.geometry) parts.items) }
    ensures rotten { (files : List (List ℕ)) → Show (map (λ s. seen (S.given s) (S.ends s) (S.failed s)) sources.new) files → IfErr result (NamesFirstOf plan.now.geometry plan.now.lost helpers.now files stripe) }
    ensures shown { (files : List (List ℕ)) → Show (map (λ s. seen (S.given s) (S.ends s) (S.failed s)) sources.new) files → Show (map (λ s. seen (S.given s) (S.ends s) (S.failed s)) sources.old) files }
    ensures asked { OnOk result (AreAsked helpers.now (block_ranges plan.now.geometry plan.now.lost stripe) (all_chunks plan.now.geometry) (map (λ s. seen (S.given s) (S.ends s) (S.failed s)) sources.old) (map (λ s. seen (S.given s) (S.ends s) (S.failed s)) sources.new)) }
    ensures unwritten { IsErrOf result MendFault.WriteFault → ⊥ }
    ensures cause { IsErrOf result MendFault.ReadFault → FailsAt plan.now.geometry helpers.now stripe (map (λ s. seen (S.given s) (S.ends s) (S.failed s)) sources.old) (map (λ s. seen (S.given s) (S.ends s) (S.failed s)) sources.new) }
    ensures steady { (IsErrOf result MendFault.ReadFault → ⊥) → NoReadFails (map (λ s. seen (S.given s) (S.ends s) (S.failed s)) sources.old) (map (λ s. seen (S.given s) (S.ends s) (S.failed s)) sources.new) }
{
    let mut parts = Vec::with_capacity(alloc, helpers.len())?;
    for share in 0..plan.geometry.n() {
        let at = share as usize;
        let source = &mut sources[at];
        let help = helpers[at];
        match part_of(alloc, crc, source, plan, rooms, stripe, share, help) {
            Ok(part) => parts.push_reserved(part),
            Err(fault) => return Err(fault),
        }
    }
    Ok(parts)
}
