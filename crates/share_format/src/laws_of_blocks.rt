//! What holds of blocks and of parts. The functions do nothing: their contracts are the theorems.
ghost use Rattle.std.specs.Prelude.{◌≡◌, ℕ, List, length};
ghost use Rattle.clay_grid.specs.Shape.{chunk_length};
ghost use Rattle.clay_model.specs.RepairParts.{subchunks_at};
ghost use Rattle.clay_aloof.specs.Shape.{AloofShape, grid_of};
ghost use Rattle.clay_aloof.specs.Repair.{aloof_layers_of};
ghost use Rattle.share_format.specs.Blocks.{aligned, table_of, block_of, IsBlock};
ghost use Rattle.share_format.specs.Parts.{IsIntactPart};

/// What was made of a chunk isn't refused: its block is one, and its part for a mend passes the table in front of it.
pub fn intact_ones_pass()
    ensures block { (a : AloofShape) (chunk : List ℕ) → length chunk ≡ chunk_length (grid_of a)
        → IsBlock a (block_of a chunk) }
    ensures part { (a : AloofShape) (lost : ℕ) (chunk : List ℕ) → length chunk ≡ chunk_length (grid_of a)
        → IsIntactPart a (aloof_layers_of a lost) (aligned a (table_of a chunk))
        (subchunks_at a.width chunk (aloof_layers_of a lost)) }
{}
