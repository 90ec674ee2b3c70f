//! What the commands make together. The functions do nothing: their contracts are the theorems.
ghost use Rattle.std.specs.Prelude.{◌≡◌, ℕ, [], Bool, true, false, List, get_or};
ghost use Rattle.clay_aloof.specs.Shape.{all_chunks};
ghost use Rattle.clay_aloof.specs.Limits.{IsAloof};
ghost use Rattle.share_files.specs.Seen.{Show};
ghost use Rattle.share_files.specs.Joined.{NoRotPasses};
ghost use Rattle.share_mends.specs.Asked.{AreHelpers, helps};
ghost use Rattle.share_run.specs.Cut.{CutRun, SharesPlaced};
ghost use Rattle.share_run.specs.Join.{JoinRun, FilePlaced, IsAnother, JoinEnds};
ghost use Rattle.share_run.specs.Made.{ShowMade, TellsShare, PlacesOrFails};
ghost use Rattle.share_run.specs.Mend.{MendRun, MendEnds, MendStops};
ghost use Rattle.share_run.specs.Rebuild.{RebuildEnds};
ghost use Rattle.share_run.specs.declared.mends_of_shares.MendStop.{MendStop};
ghost use Rattle.share_run.specs.declared.share_status.ShareStatus.{ShareStatus};

/// Any `K` of the shares that a cut put into its places join to the file that was cut, unless a read, a write, the place or memory fails.
pub fn cut_shares_join()
    ensures { (cut : CutRun) (made : SharesPlaced cut (all_chunks cut.shape)) (lost : ℕ → Bool)
        (join : JoinRun) (status : ShareStatus) → IsAloof cut.shape
        → TellsShare cut.shape made.cut.file join.header
        → ShowMade cut.shape made.files lost join.olds join.news → JoinEnds status join
        → PlacesOrFails status join.before join.after made.cut.file }
{}

/// What a join puts is the file of which the shares are, where its checksums find all rot in them, and no join of them ends with another checksum.
pub fn joined_files_are_right()
    ensures placed { (join : JoinRun) (file : List ℕ) (files : List (List ℕ)) → Show join.news files
        → NoRotPasses join.header file files → (placed : FilePlaced join) → placed.file ≡ file }
    ensures other { (join : JoinRun) (file : List ℕ) (files : List (List ℕ)) → Show join.news files
        → NoRotPasses join.header file files → IsAnother join → ⊥ }
{}

/// From any `K` of them a lost share is mended as it was cut, unless a read, a write, the place or memory fails: from whole blocks, and from parts
/// where the helpers are among them. No helper stops it then.
pub fn cut_shares_mend()
    ensures blocks { (cut : CutRun) (made : SharesPlaced cut (all_chunks cut.shape))
        (lost : ℕ → Bool) (mend : MendRun) (status : ShareStatus) → IsAloof cut.shape
        → TellsShare cut.shape made.cut.file mend.header
        → ShowMade cut.shape made.files lost mend.olds mend.news → RebuildEnds status mend
        → PlacesOrFails status mend.before mend.after (get_or made.files mend.header.share []) }
    ensures parts { (cut : CutRun) (made : SharesPlaced cut (all_chunks cut.shape))
        (lost : ℕ → Bool) (mend : MendRun) (marks : List Bool) (status : ShareStatus)
        → IsAloof cut.shape → TellsShare cut.shape made.cut.file mend.header
        → ShowMade cut.shape made.files lost mend.olds mend.news
        → ((c : ℕ) → helps marks c ≡ true → lost c ≡ false) → MendEnds marks mend status
        → PlacesOrFails status mend.before mend.after (get_or made.files mend.header.share []) }
    ensures stops { (cut : CutRun) (made : SharesPlaced cut (all_chunks cut.shape))
        (lost : ℕ → Bool) (mend : MendRun) (marks : List Bool) (stop : MendStop)
        → IsAloof cut.shape → TellsShare cut.shape made.cut.file mend.header
        → ShowMade cut.shape made.files lost mend.olds mend.news
        → AreHelpers cut.shape mend.header.share marks
        → ((c : ℕ) → helps marks c ≡ true → lost c ≡ false) → MendStops marks mend stop → ⊥ }
{}
