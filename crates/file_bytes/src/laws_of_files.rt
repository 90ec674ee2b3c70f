//! What files are that writes make. The function does nothing: its contract is the law.
ghost use Rattle.std.specs.Prelude.{◌≡◌, ℕ, ◌+◌, List, ◌++◌, length, drop};
ghost use Rattle.file_bytes.specs.Laid.{laid_at};

/// What is laid at a file's end stands behind what it has from some place on, and what is laid over its front before the rest.
pub fn files_grow()
    ensures behind { (start : ℕ) (bytes piece file : List ℕ) → drop start file ≡ bytes
        → drop start (laid_at (start + length bytes) piece file) ≡ bytes ++ piece }
    ensures before { (piece file : List ℕ) → laid_at 0 piece file ≡ piece ++ drop (length piece) file }
{}
