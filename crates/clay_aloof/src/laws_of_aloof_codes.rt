//! What holds of the codes. The functions do nothing: their contracts are the laws.
ghost use Rattle.std.specs.Prelude.{◌≡◌, ℕ, Bool, ◌+◌, ◌-◌, ◌<◌, ◌≤◌, ◌⊎◌, ◌↔◌, ◌∷◌, [], List};
ghost use Rattle.clay_grid.specs.Shape.{shape_of};
ghost use Rattle.clay_model.specs.Code.{IsCodeword};
ghost use Rattle.clay_aloof.specs.Shape.{AloofShape, aloof_of, grid_of};
ghost use Rattle.clay_aloof.specs.Limits.{IsAloof, IsWithinLimits, IsFirstFault};
ghost use Rattle.clay_aloof.specs.declared.aloof_fault.BadAloof.{BadAloof};
ghost use Rattle.clay_aloof.specs.Code.{IsCodeword as IsAloofCodeword, Codes, AgreesBut};
ghost use Rattle.clay_aloof.specs.Worked.{three_helpers, worked_stripe, worked_chunks, worked_parts};
ghost use Rattle.clay_aloof.specs.Filled.{CodesAreFilled};
ghost use Rattle.clay_aloof.specs.Coded.{PartsAreCoded};

/// With as many helpers as there are other chunks the grid and the codewords are those of the code without aloof chunks.
pub fn full_helpers()
    ensures grid { (k m w : ℕ) → 0 < k → 0 < m → grid_of (aloof_of k m (k + m - 1) w) ≡ shape_of k m w }
    ensures codewords { (k m w : ℕ) (chunks : List (List ℕ)) → 0 < k → 0 < m
        → (IsAloofCodeword (aloof_of k m (k + m - 1) w) chunks ↔ IsCodeword (shape_of k m w) chunks) }
{}

/// Any values at all but `m` nodes are those of a code of which the first `m` weighted sums are zero.
pub fn codes_are_filled()
    ensures { CodesAreFilled }
{}

/// Two codewords that agree on all but as many chunks as there are parity chunks are equal, so a stripe has one.
pub fn codewords_are_unique()
    ensures agreeing { (g : AloofShape) (erased : ℕ → Bool) (chunks others : List (List ℕ)) → IsAloof g
        → IsAloofCodeword g chunks → IsAloofCodeword g others → AgreesBut g erased chunks others → chunks ≡ others }
    ensures of_one_stripe { (g : AloofShape) (stripe : List ℕ) (chunks others : List (List ℕ)) → IsAloof g
        → Codes g stripe chunks → Codes g stripe others → chunks ≡ others }
{}

/// Any parts of helpers that fit are those of a codeword.
pub fn parts_are_coded()
    ensures { PartsAreCoded }
{}

/// A worked codeword with three helpers, and what the other chunks give for a repair of chunk 0.
pub fn worked_codeword()
    ensures codes { Codes three_helpers worked_stripe worked_chunks }
    ensures parts { worked_parts ≡ (0x01 ∷ 0 ∷ 0 ∷ 0 ∷ []) ∷ (0xa7 ∷ 0 ∷ 0 ∷ 0 ∷ [])
        ∷ (0 ∷ 0 ∷ 0 ∷ 0 ∷ []) ∷ (0x01 ∷ 0x53 ∷ 0 ∷ 0 ∷ []) ∷ (0xa7 ∷ 0 ∷ 0 ∷ 0 ∷ []) ∷ [] }
{}

/// A shape is within the limits or has a first fault, and not both.
pub fn fault_law()
    ensures either { (a : AloofShape) → IsWithinLimits a ⊎ ((f : BadAloof) × IsFirstFault a f) }
    ensures not_both { (a : AloofShape) (f : BadAloof) → IsFirstFault a f → ¬ IsWithinLimits a }
{}
