//! What holds of the parts that a repair reads. The functions do nothing: their contracts are the laws.
ghost use Rattle.std.specs.Prelude.{◌≡◌, ℕ, ◌*◌, ◌<◌, List, [], ◌∷◌, length, replicate, All};
ghost use Rattle.clay_grid.specs.Shape.{Shape, chunk_count};
ghost use Rattle.clay_grid.specs.Limits.{IsGeometry};
ghost use Rattle.clay_grid.specs.Repair.{repair_layers_of};
ghost use Rattle.clay_model.specs.Code.{IsCodeword};
ghost use Rattle.clay_model.specs.Worked.{two_and_two, three_and_two, unpaired_chunks, virtual_chunks};
ghost use Rattle.clay_model.specs.RepairParts.{repair_parts, part_length};

/// A part has a subchunk of each repair layer, in a codeword as well.
pub fn parts_have_their_bytes()
    ensures layers { (g : Shape) (lost : ℕ) → IsGeometry g → lost < chunk_count g
        → length (repair_layers_of g lost) * g.width ≡ part_length g }
    ensures parts { (g : Shape) (lost : ℕ) (word : List (List ℕ)) → IsGeometry g → lost < chunk_count g
        → IsCodeword g word → All (λ part. length part ≡ part_length g) (repair_parts g lost word) }
{}

/// What repairs of two worked codewords read.
pub fn worked_repairs()
    ensures data { repair_parts two_and_two 0 unpaired_chunks
        ≡ (0x01 ∷ 0x00 ∷ []) ∷ (0x00 ∷ 0x00 ∷ []) ∷ (0x03 ∷ 0xa6 ∷ []) ∷ (0x53 ∷ 0x00 ∷ []) ∷ [] }
    ensures parity { repair_parts three_and_two 4 virtual_chunks
        ≡ replicate 4 0 ∷ replicate 4 0 ∷ replicate 4 0
        ∷ (0x55 ∷ 0xf7 ∷ 0x00 ∷ 0x00 ∷ []) ∷ replicate 4 0 ∷ [] }
{}
