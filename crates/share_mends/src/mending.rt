//! A share mended from parts of helpers' shares.
ghost use Rattle.std.specs.Prelude.{◌≡◌, ◌+◌, ◌^◌, ◌<◌, ℕ, List, true, map, length, IfOk, IfErr, OnOk, OnErr, IsErrOf};
ghost use Rattle.std.specs.List.{flat_map, range_with_len};
ghost use Rattle.crc64.specs.Remainder.{checksum_of};
ghost use Rattle.clay_bytes.specs.Stream.{Rises};
ghost use Rattle.clay_aloof.specs.Shape.{all_chunks};
ghost use Rattle.share_format.specs.Blocks.{block_length};
ghost use Rattle.share_format.specs.Cut.{stripe_count, AreCodewords};
ghost use Rattle.share_format.specs.Mend.{block_ranges};
ghost use Rattle.share_format.specs.Shares.{block_start};
ghost use Rattle.share_files.specs.Seen.{seen, Show};
ghost use Rattle.share_files.specs.Put.{PutsBlock, PutsAtMost, PutsBlocks, PutsSome, PutsPart, HasChunks, PutsFile, PutsShare};
ghost use Rattle.share_mends.specs.Spans.{IsMendPlan};
ghost use Rattle.share_mends.specs.Asked.{helps, AreHelpers, AreAsked, FailsAt, OneReadFails, NoReadFails};
ghost use Rattle.share_mends.specs.Gathered.{NamesFirstOf};
ghost use Rattle.share_mends.specs.Mended.{HasGood, HaveGood, NamesFirst, AreOfWords, IsMended, IsMendedBlock};

use crate::gathering::read_parts;
use crate::mend_fault::MendFault;
use crate::parts::keep_rooms;
use crate::spans::{MendPlan, make_plan};
use clay_bytes::WriteFault;
use crc64::Crc64;
use file_bytes::{SinkAt, SourceAt};
use share_files::{PutFault, write_block, write_header};
use share_format::{ShareHeader, make_block, mend_stripe};
use std::alloc::Global;

// The block of the lost share for a stripe, from the helpers' parts.
fn mended_block<S: SourceAt>(
    alloc: Global,
    crc: &Crc64,
    sources: &mut [S],
    plan: &MendPlan,
    helpers: &[bool],
    rooms: &mut Vec<Vec<u8>>,
    stripe: u64,
) -> Result<Vec<u8>, MendFault>
    requires plan { IsMendPlan plan.now }
    requires shares { length sources.old ≡ all_chunks plan.now.geometry }
    requires helpers { AreHelpers plan.now.geometry plan.now.lost helpers.now }
    requires place { block_start plan.now.geometry stripe + block_length plan.now.geometry < 2 ^ 64 }
    ensures block { IfOk result (λ block. IsMendedBlock plan.now.geometry plan.now.lost helpers.now (map (λ s. seen (S.given s) (S.ends s) (S.failed s)) sources.new) stripe block.items) }
    ensures good { (files : List (List ℕ)) → Show (map (λ s. seen (S.given s) (S.ends s) (S.failed s)) sources.new) files → OnOk result ((c : ℕ) → c < all_chunks plan.now.geometry → helps helpers.now c ≡ true → HasGood plan.now.geometry plan.now.lost files stripe c) }
    ensures rotten { (files : List (List ℕ)) → Show (map (λ s. seen (S.given s) (S.ends s) (S.failed s)) sources.new) files → IfErr result (NamesFirstOf plan.now.geometry plan.now.lost helpers.now files stripe) }
    ensures shown { (files : List (List ℕ)) → Show (map (λ s. seen (S.given s) (S.ends s) (S.failed s)) sources.new) files → Show (map (λ s. seen (S.given s) (S.ends s) (S.failed s)) sources.old) files }
    ensures asked { OnOk result (AreAsked helpers.now (block_ranges plan.now.geometry plan.now.lost stripe) (all_chunks plan.now.geometry) (map (λ s. seen (S.given s) (S.ends s) (S.failed s)) sources.old) (map (λ s. seen (S.given s) (S.ends s) (S.failed s)) sources.new)) }
    ensures unwritten { IsErrOf result MendFault.WriteFault → ⊥ }
    ensures cause { IsErrOf result MendFault.ReadFault → FailsAt plan.now.geometry helpers.now stripe (map (λ s. seen (S.given s) (S.ends s) (S.failed s)) sources.old) (map (λ s. seen (S.given s) (S.ends s) (S.failed s)) sources.new) }
    ensures steady { (IsErrOf result MendFault.ReadFault → ⊥) → NoReadFails (map (λ s. seen (S.given s) (S.ends s) (S.failed s)) sources.old) (map (λ s. seen (S.given s) (S.ends s) (S.failed s)) sources.new) }
{
    let parts = match read_parts(alloc, crc, sources, plan, helpers, rooms, stripe) {
        Ok(parts) => parts,
        Err(fault) => return Err(fault),
    };
    let chunk = mend_stripe(alloc, plan.geometry, plan.lost, &parts)?;
    keep_rooms(parts, rooms)?;
    let block = make_block(alloc, plan.geometry, crc, &chunk)?;
    Ok(block)
}

// Puts the block of the lost share for a stripe into its place, and gives it back.
fn mend_one<S: SourceAt, K: SinkAt>(
    alloc: Global,
    crc: &Crc64,
    sources: &mut [S],
    plan: &MendPlan,
    helpers: &[bool],
    rooms: &mut Vec<Vec<u8>>,
    sink: &mut K,
    stripe: u64,
) -> Result<Vec<u8>, MendFault>
    requires plan { IsMendPlan plan.now }
    requires shares { length sources.old ≡ all_chunks plan.now.geometry }
    requires helpers { AreHelpers plan.now.geometry plan.now.lost helpers.now }
    requires place { block_start plan.now.geometry stripe + block_length plan.now.geometry < 2 ^ 64 }
    ensures put { OnOk result (PutsBlock plan.now.geometry (IsMended plan.now.geometry plan.now.lost helpers.now (map (λ s. seen (S.given s) (S.ends s) (S.failed s)) sources.new)) stripe (K.put sink.old) (K.put sink.new)) }
    ensures part { OnErr result (PutsAtMost plan.now.geometry (IsMended plan.now.geometry plan.now.lost helpers.now (map (λ s. seen (S.given s) (S.ends s) (S.failed s)) sources.new)) stripe (K.put sink.old) (K.put sink.new)) }
    ensures good { (files : List (List ℕ)) → Show (map (λ s. seen (S.given s) (S.ends s) (S.failed s)) sources.new) files → OnOk result ((c : ℕ) → c < all_chunks plan.now.geometry → helps helpers.now c ≡ true → HasGood plan.now.geometry plan.now.lost files stripe c) }
    ensures rotten { (files : List (List ℕ)) → Show (map (λ s. seen (S.given s) (S.ends s) (S.failed s)) sources.new) files → IfErr result (NamesFirstOf plan.now.geometry plan.now.lost helpers.now files stripe) }
    ensures shown { (files : List (List ℕ)) → Show (map (λ s. seen (S.given s) (S.ends s) (S.failed s)) sources.new) files → Show (map (λ s. seen (S.given s) (S.ends s) (S.failed s)) sources.old) files }
    ensures asked { OnOk result (AreAsked helpers.now (block_ranges plan.now.geometry plan.now.lost stripe) (all_chunks plan.now.geometry) (map (λ s. seen (S.given s) (S.ends s) (S.failed s)) sources.old) (map (λ s. seen (S.given s) (S.ends s) (S.failed s)) sources.new)) }
    ensures read { IsErrOf result MendFault.ReadFault → FailsAt plan.now.geometry helpers.now stripe (map (λ s. seen (S.given s) (S.ends s) (S.failed s)) sources.old) (map (λ s. seen (S.given s) (S.ends s) (S.failed s)) sources.new) }
    ensures reads { (IsErrOf result MendFault.ReadFault → ⊥) → NoReadFails (map (λ s. seen (S.given s) (S.ends s) (S.failed s)) sources.old) (map (λ s. seen (S.given s) (S.ends s) (S.failed s)) sources.new) }
    ensures write { IsErrOf result MendFault.WriteFault → Rises (K.faults sink.old) (K.faults sink.new) }
    ensures writes { (IsErrOf result MendFault.WriteFault → ⊥) → K.faults sink.new ≡ K.faults sink.old }
{
    let block = match mended_block(alloc, crc, sources, plan, helpers, rooms, stripe) {
        Ok(block) => block,
        Err(fault) => return Err(fault),
    };
    match write_block(sink, plan.geometry, stripe, &block) {
        Ok(()) => Ok(block),
        Err(WriteFault) => Err(MendFault::WriteFault),
    }
}

// Puts the blocks of the lost share for so many stripes into their places.
fn mend_stripes<S: SourceAt, K: SinkAt>(
    alloc: Global,
    crc: &Crc64,
    sources: &mut [S],
    plan: &MendPlan,
    helpers: &[bool],
    sink: &mut K,
    stripes: u64,
) -> Result<(), MendFault>
    requires plan { IsMendPlan plan.now }
    requires shares { length sources.old ≡ all_chunks plan.now.geometry }
    requires helpers { AreHelpers plan.now.geometry plan.now.lost helpers.now }
    requires place { block_start plan.now.geometry stripes < 2 ^ 64 }
    ensures put { OnOk result (PutsBlocks plan.now.geometry (IsMended plan.now.geometry plan.now.lost helpers.now (map (λ s. seen (S.given s) (S.ends s) (S.failed s)) sources.new)) stripes (K.put sink.old) (K.put sink.new)) }
    ensures part { OnErr result (PutsSome plan.now.geometry (IsMended plan.now.geometry plan.now.lost helpers.now (map (λ s. seen (S.given s) (S.ends s) (S.failed s)) sources.new)) stripes (K.put sink.old) (K.put sink.new)) }
    ensures good { (files : List (List ℕ)) → Show (map (λ s. seen (S.given s) (S.ends s) (S.failed s)) sources.new) files → OnOk result (HaveGood plan.now.geometry plan.now.lost helpers.now files stripes) }
    ensures rotten { (files : List (List ℕ)) → Show (map (λ s. seen (S.given s) (S.ends s) (S.failed s)) sources.new) files → IfErr result (NamesFirst plan.now.geometry plan.now.lost helpers.now files stripes) }
    ensures asked { OnOk result (AreAsked helpers.now (flat_map (block_ranges plan.now.geometry plan.now.lost) (range_with_len 0 stripes)) (all_chunks plan.now.geometry) (map (λ s. seen (S.given s) (S.ends s) (S.failed s)) sources.old) (map (λ s. seen (S.given s) (S.ends s) (S.failed s)) sources.new)) }
    ensures read { IsErrOf result MendFault.ReadFault → OneReadFails plan.now.geometry helpers.now stripes (map (λ s. seen (S.given s) (S.ends s) (S.failed s)) sources.old) (map (λ s. seen (S.given s) (S.ends s) (S.failed s)) sources.new) }
    ensures reads { (IsErrOf result MendFault.ReadFault → ⊥) → NoReadFails (map (λ s. seen (S.given s) (S.ends s) (S.failed s)) sources.old) (map (λ s. seen (S.given s) (S.ends s) (S.failed s)) sources.new) }
    ensures write { IsErrOf result MendFault.WriteFault → Rises (K.faults sink.old) (K.faults sink.new) }
    ensures writes { (IsErrOf result MendFault.WriteFault → ⊥) → K.faults sink.new ≡ K.faults sink.old }
{
    let mut rooms = Vec::new(alloc);
    // A block stays until the next one is made: so the end of the heap is in use, and its pages aren't given back after each stripe.
    let mut last = Vec::new(alloc);
    for stripe in 0..stripes {
        match mend_one(alloc, crc, sources, plan, helpers, &mut rooms, sink, stripe) {
            Ok(block) => last = block,
            Err(fault) => return Err(fault),
        }
    }
    Ok(())
}

/// Writes the lost share anew, from the parts of the marked helpers alone. The header tells the lost share's number. It is written last.
///
/// `sources` and `helpers` have an entry for each share. The helpers' headers are for the caller to read. The sink's file is to be no
/// longer than a share: what it has behind one stays.
pub fn mend<S: SourceAt, K: SinkAt>(
    alloc: Global,
    crc: &Crc64,
    header: &ShareHeader,
    sources: &mut [S],
    helpers: &[bool],
    sink: &mut K,
) -> Result<(), MendFault>
    requires shares { length sources.old ≡ all_chunks header.now.shape }
    requires helpers { AreHelpers header.now.shape header.now.share helpers.now }
    // Of whatever file the helpers' good pieces hold the parts, the sink took the share.
    ensures share { (file : List ℕ) (words : List (List (List ℕ))) (files : List (List ℕ)) → Show (map (λ s. seen (S.given s) (S.ends s) (S.failed s)) sources.new) files → length file ≡ header.now.size → checksum_of file ≡ header.now.checksum → AreCodewords header.now.shape file words → AreOfWords header.now.shape header.now.share helpers.now files words → OnOk result (PutsShare header.now.shape file header.now.share (K.put sink.old) (K.put sink.new)) }
    // Of any: the header, and the blocks of what the parts mend to.
    ensures made { OnOk result (PutsFile (HasChunks header.now (IsMended header.now.shape header.now.share helpers.now (map (λ s. seen (S.given s) (S.ends s) (S.failed s)) sources.new))) (K.put sink.old) (K.put sink.new)) }
    // After an error it took the mended blocks' bytes up to some place, or all and a part of the padded header.
    ensures part { OnErr result (PutsPart header.now (IsMended header.now.shape header.now.share helpers.now (map (λ s. seen (S.given s) (S.ends s) (S.failed s)) sources.new)) (K.put sink.old) (K.put sink.new)) }
    ensures good { (files : List (List ℕ)) → Show (map (λ s. seen (S.given s) (S.ends s) (S.failed s)) sources.new) files → OnOk result (HaveGood header.now.shape header.now.share helpers.now files (stripe_count header.now.shape header.now.size)) }
    ensures rotten { (files : List (List ℕ)) → Show (map (λ s. seen (S.given s) (S.ends s) (S.failed s)) sources.new) files → IfErr result (NamesFirst header.now.shape header.now.share helpers.now files (stripe_count header.now.shape header.now.size)) }
    // Each helper gave just its parts, and no other source gave a byte.
    ensures asked { OnOk result (AreAsked helpers.now (flat_map (block_ranges header.now.shape header.now.share) (range_with_len 0 (stripe_count header.now.shape header.now.size))) (all_chunks header.now.shape) (map (λ s. seen (S.given s) (S.ends s) (S.failed s)) sources.old) (map (λ s. seen (S.given s) (S.ends s) (S.failed s)) sources.new)) }
    ensures read { IsErrOf result MendFault.ReadFault → OneReadFails header.now.shape helpers.now (stripe_count header.now.shape header.now.size) (map (λ s. seen (S.given s) (S.ends s) (S.failed s)) sources.old) (map (λ s. seen (S.given s) (S.ends s) (S.failed s)) sources.new) }
    ensures reads { (IsErrOf result MendFault.ReadFault → ⊥) → NoReadFails (map (λ s. seen (S.given s) (S.ends s) (S.failed s)) sources.old) (map (λ s. seen (S.given s) (S.ends s) (S.failed s)) sources.new) }
    ensures write { IsErrOf result MendFault.WriteFault → Rises (K.faults sink.old) (K.faults sink.new) }
    ensures writes { (IsErrOf result MendFault.WriteFault → ⊥) → K.faults sink.new ≡ K.faults sink.old }
{
    let stripes = header.stripe_count();
    let plan = make_plan(alloc, header.geometry(), header.share())?;
    match mend_stripes(alloc, crc, sources, &plan, helpers, sink, stripes) {
        Ok(()) => {}
        Err(fault) => return Err(fault),
    }
    match write_header(alloc, crc, sink, header) {
        Ok(()) => Ok(()),
        Err(PutFault::WriteFault) => Err(MendFault::WriteFault),
        Err(PutFault::OutOfMemory) => Err(MendFault::OutOfMemory),
    }
}
