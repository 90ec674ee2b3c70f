//! What holds of the format. The functions do nothing: their contracts are the theorems.
ghost use Rattle.std.specs.Prelude.{◌≡◌, ℕ, ◌+◌, ◌*◌, ◌^◌, ◌<◌, ◌≤◌, Bool, false, List, length, get_or, bit_xor};
ghost use Rattle.crc64.specs.Remainder.{polynomial};
ghost use Rattle.clay_grid.specs.Shape.{layer_count};
ghost use Rattle.clay_grid.specs.Score.{count_below};
ghost use Rattle.clay_aloof.specs.Shape.{AloofShape, all_chunks, grid_of};
ghost use Rattle.clay_aloof.specs.Repair.{part_bytes};
ghost use Rattle.clay_aloof.specs.Limits.{IsAloof};
ghost use Rattle.share_format.specs.Cut.{stripe_count, AreCodewords};
ghost use Rattle.share_format.specs.Blocks.{page_of, rounded, subchunk, table_of, chunk_start, HasChecksum};
ghost use Rattle.share_format.specs.Mend.{mend_ranges, bytes_in, mend_bytes, AreMendedFrom};
ghost use Rattle.share_format.specs.Header.{Header, IsHeader, header_bytes};
ghost use Rattle.share_format.specs.Faults.{IsFirstFault};
ghost use Rattle.share_format.specs.Shares.{share_with, chunks_at, share_length, IsShare, HaveEqualShare};
ghost use Rattle.share_format.specs.declared.format_fault.BadHeader.{BadHeader};

/// A file has one share file of each number.
pub fn shares_are_determined()
    ensures { (a : AloofShape) (file : List ℕ) (number : ℕ) (bytes others : List ℕ) → IsAloof a
        → IsShare a file number bytes → IsShare a file number others → bytes ≡ others }
{}

/// A share file has the length that its header tells.
pub fn shares_have_length()
    ensures { (a : AloofShape) (file : List ℕ) (number : ℕ) (bytes : List ℕ)
        → IsShare a file number bytes → length bytes ≡ share_length a (length file) }
{}

/// Any `K` shares determine the file: files whose shares are equal, but for at most `M` erased ones, are equal.
pub fn files_are_determined()
    ensures { (a : AloofShape) (erased : ℕ → Bool) (file other : List ℕ) → IsAloof a
        → count_below (all_chunks a) erased ≤ a.parity_count
        → length file ≤ 2 ^ 56 → length other ≤ 2 ^ 56
        → ((c : ℕ) → c < all_chunks a → erased c ≡ false → HaveEqualShare a file other c)
        → file ≡ other }
{}

/// With the chunks that are rebuilt from the helpers' parts a mend writes the lost share.
pub fn mends_are_shares()
    ensures { (a : AloofShape) (file : List ℕ) (lost : ℕ) (words : List (List (List ℕ)))
        (chunks : List (List ℕ)) → lost < all_chunks a → AreCodewords a file words
        → AreMendedFrom a lost words chunks → IsShare a file lost (share_with a file lost chunks) }
{}

/// The ranges that a mend reads of a helper's share hold its header, its tables and its parts for the repair: of each block the table and
/// one subchunk of as many as the grid has rows.
pub fn mends_read_parts()
    ensures held { (a : AloofShape) (lost : ℕ) (file : List ℕ) (number : ℕ) (bytes : List ℕ)
        (is : IsShare a file number bytes) → bytes_in (mend_ranges a lost (length file)) bytes
        ≡ mend_bytes a lost file number (chunks_at number is.words) }
    ensures bytes { (a : AloofShape) (lost : ℕ) (file : List ℕ) (number : ℕ) (bytes : List ℕ)
        → IsAloof a → lost < all_chunks a → IsShare a file number bytes
        → length (bytes_in (mend_ranges a lost (length file)) bytes)
        ≡ rounded (page_of a) 64 + stripe_count a (length file) * (chunk_start a + part_bytes a) }
{}

/// A subchunk has its checksum in its chunk's table. One that differs from it within 64 bits in a row has not.
pub fn rot_is_found()
    ensures kept { (a : AloofShape) (chunk : List ℕ) (layer : ℕ) → layer < layer_count (grid_of a)
        → HasChecksum (table_of a chunk) layer (subchunk a chunk layer) }
    ensures found { (a : AloofShape) (chunk piece : List ℕ) (layer start burst : ℕ)
        → layer < layer_count (grid_of a)
        → ((i : ℕ) → get_or chunk i 0 < 2 ^ 8) → ((i : ℕ) → get_or piece i 0 < 2 ^ 8)
        → length piece ≡ length (subchunk a chunk layer)
        → start ≤ 8 * length (subchunk a chunk layer) → 0 < burst → burst < 2 ^ 64
        → polynomial piece
        ≡ bit_xor (polynomial (subchunk a chunk layer)) (burst * 2 ^ start)
        → ¬ HasChecksum (table_of a chunk) layer piece }
{}

/// The bytes of a header have no fault, and are those of no other header.
pub fn headers_are_read_back()
    ensures accepted { (h : Header) (fault : BadHeader) → IsHeader h
        → ¬ IsFirstFault (header_bytes h) fault }
    ensures unique { (h other : Header) → IsHeader h → IsHeader other
        → header_bytes h ≡ header_bytes other → h ≡ other }
{}
