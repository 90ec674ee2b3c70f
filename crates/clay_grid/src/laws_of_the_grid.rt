//! What holds of layers, partners, repairs, scores and limits. The functions do nothing: their
//! contracts are the laws.

ghost use Rattle.std.specs.Prelude.{◌≡◌, ℕ, ◌+◌, ◌*◌, ◌^◌, ◌<◌, ◌≤◌, ◌⊎◌, List, Bool, length};
ghost use Rattle.clay_grid.specs.Shape.{Shape, chunk_count, row_count, column_count, node_count, layer_count, node_of_chunk};
ghost use Rattle.clay_grid.specs.Layers.{digits_of, index_of, IsLayer, PlacedVertex, partner_of};
ghost use Rattle.clay_grid.specs.Limits.{IsWithinLimits, IsFirstFault, IsGeometry};
ghost use Rattle.clay_grid.specs.Score.{score_of, score_at};
ghost use Rattle.clay_grid.specs.declared.geometry_fault.BadGeometry.{BadGeometry};
ghost use Rattle.clay_grid.specs.Repair.{repair_layers_of};

/// Layers and their numbers below `q ^ t` stand for each other.
pub fn layer_laws()
    ensures digits { (q t n : ℕ) → 0 < q → IsLayer q t (digits_of q t n) }
    ensures number { (q t : ℕ) (z : List ℕ) → IsLayer q t z → index_of q z < q ^ t }
    ensures number_of_digits { (q t n : ℕ) →
        0 < q → n < q ^ t → index_of q (digits_of q t n) ≡ n }
    ensures digits_of_number { (q t : ℕ) (z : List ℕ) →
        0 < q → IsLayer q t z → digits_of q t (index_of q z) ≡ z }
{}

/// The partner of the partner is the vertex.
pub fn partner_law()
    ensures { (v : PlacedVertex) → v.column < length v.layer → partner_of (partner_of v) ≡ v }
{}

/// A repair reads one in `q` of each other chunk's subchunks.
pub fn repair_law()
    ensures { (g : Shape) (chunk : ℕ) → IsGeometry g → chunk < chunk_count g →
        length (repair_layers_of g chunk) * row_count g ≡ layer_count g }
{}

/// A layer's score is at most the number of columns.
pub fn score_law()
    ensures { (g : Shape) (erased : List Bool) (z : ℕ) → IsGeometry g →
        score_at g erased z ≤ column_count g }
{}

/// The limits bound the counts of nodes, columns and bytes.
pub fn limit_law()
    ensures { (g : Shape) → IsWithinLimits g → IsGeometry g }
{}

/// A shape is within the limits or has a first fault, and not both.
pub fn fault_law()
    ensures either { (g : Shape) → IsWithinLimits g ⊎ ((f : BadGeometry) × IsFirstFault g f) }
    ensures not_both { (g : Shape) (f : BadGeometry) → IsFirstFault g f → ¬ IsWithinLimits g }
{}
