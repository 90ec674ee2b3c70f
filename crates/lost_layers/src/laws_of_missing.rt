//! What holds of the pieces. The functions do nothing: their contracts are the theorems.
ghost use Rattle.clay_grid.specs.Limits.{IsGeometry};
ghost use Rattle.lost_layers.specs.Erased.{Erased, IsErased};
ghost use Rattle.lost_layers.specs.ErasedPieces.{PiecesDetermine};

/// The pieces determine the layers, whichever further nodes count as unknown.
pub fn missing_pieces_determine()
    ensures { (e : Erased) → IsGeometry e.g → IsErased e → PiecesDetermine e }
{}
