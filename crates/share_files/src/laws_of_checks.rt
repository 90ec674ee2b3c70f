//! What is whole. The function does nothing: its contract is the theorem.
ghost use Rattle.std.specs.Prelude.{◌≡◌, ℕ, List, length};
ghost use Rattle.crc64.specs.Remainder.{checksum_of};
ghost use Rattle.share_format.specs.Header.{Header};
ghost use Rattle.share_format.specs.Shares.{IsShare};
ghost use Rattle.share_files.specs.Whole.{IsWhole};

/// A file's share is whole.
pub fn shares_are_whole()
    ensures { (h : Header) (file bytes : List ℕ) → length file ≡ h.size → checksum_of file ≡ h.checksum
        → IsShare h.shape file h.share bytes → IsWhole h bytes }
{}
