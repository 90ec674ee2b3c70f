//! What a mend reads. The function does nothing: its contract is the theorem.
ghost use Rattle.std.specs.Prelude.{◌≡◌, ℕ, ◌+◌, ◌*◌, ◌<◌, ◌++◌, length};
ghost use Rattle.std.specs.List.{flat_map, range_with_len};
ghost use Rattle.clay_aloof.specs.Shape.{AloofShape, all_chunks};
ghost use Rattle.clay_aloof.specs.Limits.{IsAloof};
ghost use Rattle.clay_aloof.specs.Repair.{part_bytes};
ghost use Rattle.share_format.specs.Blocks.{page_of, rounded, chunk_start};
ghost use Rattle.share_format.specs.Cut.{stripe_count};
ghost use Rattle.share_format.specs.Mend.{block_ranges, mend_ranges};
ghost use Rattle.share_mends.specs.Places.{places_in};

/// The places that a mend reads of a helper's blocks are those of the format's ranges, but for the header. They are as many for each stripe
/// as a table and a part have bytes.
pub fn mends_read_ranges()
    ensures places { (a : AloofShape) (lost size : ℕ) → places_in (mend_ranges a lost size)
        ≡ range_with_len 0 (rounded (page_of a) 64) ++ places_in (flat_map (block_ranges a lost) (range_with_len 0 (stripe_count a size))) }
    ensures count { (a : AloofShape) (lost count : ℕ) → IsAloof a → lost < all_chunks a
        → length (places_in (flat_map (block_ranges a lost) (range_with_len 0 count))) ≡ count * (chunk_start a + part_bytes a) }
{}
