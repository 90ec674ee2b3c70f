//! What holds of the pieces. The functions do nothing: their contracts are the theorems.
ghost use Rattle.std.specs.Prelude.{◌≡◌, ℕ, suc, ◌+◌, ◌*◌, ◌<◌, ◌≤◌, length};
ghost use Rattle.clay_grid.specs.Shape.{Shape, chunk_count, column_count, virtual_count};
ghost use Rattle.clay_grid.specs.Limits.{IsGeometry};
ghost use Rattle.clay_grid.specs.Repair.{repair_layers_of};
ghost use Rattle.lost_layers.specs.LostLayers.{IsLostRun};
ghost use Rattle.lost_layers.specs.LostPieces.{lost_layers_of, lost_pieces_of};
ghost use Rattle.lost_layers.specs.Determined.{PiecesDetermine};
ghost use Rattle.lost_layers.specs.Ranges.{RangesAreCoded};
ghost use Rattle.lost_layers.specs.declared.run.LostRun.{LostRun};

/// The pieces determine the layers: two codewords with the same pieces have the same layers of the lost chunk.
pub fn pieces_determine_runs()
    ensures { (g : Shape) (run : LostRun) → IsGeometry g → IsLostRun g run → PiecesDetermine g run }
{}

/// Of no chunk more subchunks are read than a repair of the lost one reads, and none of the lost one.
pub fn reads_stay_within_repairs()
    ensures of_chunk { (g : Shape) (run : LostRun) (c : ℕ) → IsGeometry g → IsLostRun g run → c < chunk_count g
        → length (lost_layers_of g run c) ≤ length (repair_layers_of g run.lost) }
    ensures of_lost { (g : Shape) (run : LostRun) → length (lost_layers_of g run run.lost) ≡ 0 }
{}

/// For one layer, where no node is virtual, twice as many subchunks are read as there are data chunks, less the columns but one.
pub fn pieces_of_one_layer()
    ensures { (g : Shape) (run : LostRun) → IsGeometry g → IsLostRun g run → run.to ≡ suc run.from
        → virtual_count g ≡ 0 → length (lost_pieces_of g run) + column_count g ≡ 2 * g.data_count + 1 }
{}

/// The bytes at the same places of all subchunks of a codeword are a codeword of the code with that many bytes in a subchunk. So a read
/// of a part of a subchunk takes that part of each piece.
pub fn ranges_are_coded()
    ensures { (g : Shape) → RangesAreCoded g }
{}
