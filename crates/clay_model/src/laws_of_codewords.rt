//! What holds of codewords and of coupled values. The functions do nothing: their contracts are the laws.

ghost use Rattle.std.specs.Prelude.{◌≡◌, ℕ, ◌+◌, ◌-◌, ◌*◌, ◌/◌, ◌%◌, ◌^◌, ◌<◌, ◌≤◌, ◌↔◌, Bool, All, List, [], ◌∷◌, ◌++◌, length, replicate, slice_index_or, Option, is_none, slice_index, slice_set, bit_xor};
ghost use Rattle.std.specs.List.{concat};
ghost use Rattle.clay_field.specs.Coupling.{gamma, determinant};
ghost use Rattle.clay_field.specs.Field.{product, quotient};
ghost use Rattle.clay_grid.specs.Shape.{Shape, chunk_count, stripe_length};
ghost use Rattle.clay_grid.specs.Limits.{IsGeometry};
ghost use Rattle.clay_grid.specs.Layers.{digits_of, index_of, IsLayer};
ghost use Rattle.clay_grid.specs.Score.{count_below};
ghost use Rattle.clay_model.specs.Sums.{weighted_sum};
ghost use Rattle.clay_model.specs.Pairs.{AreUncoupled, AreCoupled};
ghost use Rattle.clay_model.specs.Coupling.{uncoupled, HasZeroSums};
ghost use Rattle.clay_model.specs.Code.{IsCodeword, Codes, AgreesWith, AgreesBut, HasDistinctNodes, stripes_of};
ghost use Rattle.clay_model.specs.Worked.{two_and_two, three_and_two, unpaired_chunks, paired_chunks, virtual_chunks, uncoupled_layers};

/// Coupling and uncoupling are inverse, and each value of a pair follows from two of the others.
pub fn coupling_is_inverse()
    ensures coupled { (c d u v : ℕ) → c < 2 ^ 8 → d < 2 ^ 8
        → AreUncoupled c d u v → AreCoupled u v c d }
    ensures uncoupled { (c d u v : ℕ) → u < 2 ^ 8 → v < 2 ^ 8
        → AreCoupled u v c d → AreUncoupled c d u v }
    ensures from_partner { (c d u v : ℕ) → c < 2 ^ 8
        → AreUncoupled c d u v → u ≡ bit_xor (product determinant c) (product gamma v) }
    ensures crossed { (c d u v : ℕ) → d < 2 ^ 8
        → AreUncoupled c d u v → d ≡ quotient (bit_xor u c) gamma }
{}

/// Two codewords that agree on all but as many chunks as there are parity chunks are equal. So a stripe has one, and
/// what is left of one after so many erasures has no other.
pub fn codewords_are_unique()
    ensures distinct_nodes { (g : Shape) → IsGeometry g → HasDistinctNodes g }
    ensures agreeing { (g : Shape) (erased : ℕ → Bool) (a b : List (List ℕ)) → HasDistinctNodes g
        → IsCodeword g a → IsCodeword g b → AgreesBut g erased a b → a ≡ b }
    ensures of_one_stripe { (g : Shape) (stripe : List ℕ) (a b : List (List ℕ)) → HasDistinctNodes g
        → Codes g stripe a → Codes g stripe b → a ≡ b }
    ensures of_what_is_left { (g : Shape) (present : List (Option (List ℕ))) (a b : List (List ℕ))
        → HasDistinctNodes g
        → count_below (chunk_count g) (λ c. is_none (slice_index_or present c None)) ≤ g.parity_count
        → IsCodeword g a → IsCodeword g b → AgreesWith present a → AgreesWith present b → a ≡ b }
{}

/// The stripes of some bytes have one length and are as few as hold the bytes. Joined they are the bytes, then zeros.
pub fn stripes_hold_the_bytes()
    ensures lengths { (g : Shape) (bytes : List ℕ) →
        All (λ stripe. length stripe ≡ stripe_length g) (stripes_of g bytes) }
    ensures few { (g : Shape) (bytes : List ℕ) → 0 < stripe_length g
        → length (stripes_of g bytes) * stripe_length g < length bytes + stripe_length g }
    ensures joined { (g : Shape) (bytes : List ℕ) → 0 < stripe_length g
        → concat (stripes_of g bytes)
        ≡ bytes ++ replicate (length (stripes_of g bytes) * stripe_length g - length bytes) 0 }
{}

/// The layers by their numbers: which sums are zero, and the layer of a vertex's partner.
pub fn layers_are_numbered()
    ensures sums { (q t m : ℕ) (c : ℕ → List ℕ → ℕ) → 0 < q
        → (HasZeroSums q t m c
        ↔ ((n : ℕ) → n < q ^ t → (j : ℕ) → j < m
        → weighted_sum (q * t) (λ i. uncoupled q c (i % q) (i / q) (digits_of q t n)) j ≡ 0)) }
    ensures partner { (q t x y : ℕ) (z : List ℕ) → IsLayer q t z → y < t
        → index_of q (slice_set z y x) + slice_index z y * q ^ (t - 1 - y)
        ≡ index_of q z + x * q ^ (t - 1 - y) }
{}

/// Three worked codewords, and their uncoupled values, layer by layer.
pub fn worked_codewords()
    ensures unpaired { IsCodeword two_and_two unpaired_chunks }
    ensures unpaired_values { uncoupled_layers two_and_two unpaired_chunks
        ≡ (1 ∷ 0 ∷ 3 ∷ 2 ∷ []) ∷ replicate 3 (replicate 4 0) }
    ensures paired { IsCodeword two_and_two paired_chunks }
    ensures paired_values { uncoupled_layers two_and_two paired_chunks
        ≡ (0 ∷ 1 ∷ 2 ∷ 3 ∷ []) ∷ replicate 4 0 ∷ (2 ∷ 0 ∷ 6 ∷ 4 ∷ []) ∷ replicate 4 0 ∷ [] }
    ensures with_virtual { IsCodeword three_and_two virtual_chunks }
    ensures with_virtual_values { uncoupled_layers three_and_two virtual_chunks
        ≡ (0 ∷ 0 ∷ 0 ∷ 2 ∷ 0x0c ∷ 0x0e ∷ []) ∷ replicate 6 0
        ∷ (0 ∷ 0 ∷ 1 ∷ 0 ∷ 7 ∷ 6 ∷ []) ∷ replicate 5 (replicate 6 0) }
{}
