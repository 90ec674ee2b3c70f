//! What shares join to. The functions do nothing: their contracts are the theorems.
ghost use Rattle.std.specs.Prelude.{◌≡◌, ℕ, ◌*◌, ◌<◌, [], Bool, false, List, length, take, drop, get_or};
ghost use Rattle.clay_aloof.specs.Shape.{all_chunks, stripe_bytes};
ghost use Rattle.clay_aloof.specs.Limits.{IsAloof};
ghost use Rattle.share_format.specs.Cut.{stripe_count, AreCodewords};
ghost use Rattle.share_format.specs.Header.{Header};
ghost use Rattle.share_files.specs.Seen.{Seen, seen_of, failed_since};
ghost use Rattle.share_files.specs.Missed.{LackBlocks};
ghost use Rattle.share_files.specs.Joined.{NoRotIn, NoRotPasses, AreSharesBut};
ghost use Rattle.share_files.specs.Stripes.{HasStripe};

/// Any `K` shares of a file, where the others are empty, are what `join` asks for. No stripe lacks blocks of them, unless a read fails.
pub fn any_shares_join()
    ensures pass { (h : Header) (erased : ℕ → Bool) (file : List ℕ) (files : List (List ℕ)) → IsAloof h.shape
        → AreSharesBut h erased file files → NoRotPasses h file files }
    ensures enough { (h : Header) (erased : ℕ → Bool) (file : List ℕ) (files : List (List ℕ)) (i : ℕ)
        (olds news : List Seen) → IsAloof h.shape → AreSharesBut h erased file files
        → i < stripe_count h.shape h.size
        → ((c : ℕ) → c < all_chunks h.shape → erased c ≡ false
        → failed_since (seen_of olds c) (seen_of news c) ≡ [])
        → LackBlocks h.shape i files olds news → ⊥ }
{}

/// A stripe that was joined is the file's where no rot of its own blocks has the right checksums, whatever stands in other stripes.
pub fn joined_stripes_are_right()
    ensures { (h : Header) (i : ℕ) (olds news : List Seen) (file : List ℕ)
        (words : List (List (List ℕ))) (files : List (List ℕ)) → length file ≡ h.size
        → AreCodewords h.shape file words → i < length words
        → NoRotIn h.shape i files (get_or words i []) → (bytes : List ℕ)
        → HasStripe h i files olds news bytes
        → take (stripe_bytes h.shape) (drop (i * stripe_bytes h.shape) bytes)
        ≡ take (stripe_bytes h.shape) (drop (i * stripe_bytes h.shape) file) }
{}
