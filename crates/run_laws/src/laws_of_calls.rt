//! What the definitions say, as functions that do nothing and whose contracts are the laws.

ghost use Rattle.std.specs.Prelude.{ℕ};
ghost use Rattle.clay_grid.specs.Shape.{Shape};
ghost use Rattle.run_laws.specs.StepLaws.{StepsFall};
ghost use Rattle.run_laws.specs.AnswerLaws.{PlacesAnswer};
ghost use Rattle.run_laws.specs.AnswersByKind.{PlacesAnswerByKind};
ghost use Rattle.run_laws.specs.MemoryCauses.{MemoryWasWanting, OutcomesInSteps};
ghost use Rattle.run_laws.specs.OrderLaws.{CallsKeepOrder};
ghost use Rattle.run_laws.specs.EndLaws.{AnswersEndCalls};
ghost use Rattle.run_laws.specs.TargetLaws.{TargetsEndRebuilds};
ghost use Rattle.run_laws.specs.GatheredLaws.{GatheringsEndCalls};
ghost use Rattle.store_core.specs.NextAct.{Job};
ghost use Rattle.run_laws.specs.AskLaws.{AsksFewTimes};
ghost use Rattle.run_laws.specs.CauseLaws.{OutcomesHaveCauses};
ghost use Rattle.run_laws.specs.CutLaws.{CutsChangeNoAct};
ghost use Rattle.run_laws.specs.GatherLaws.{GatheringsEnd};
ghost use Rattle.run_laws.specs.GivenLaws.{GatheringsAreGiven};
ghost use Rattle.run_laws.specs.RebuildSteps.{RebuildsMakeSteps};

/// A gathering names servers as missing exactly when one more than there are parity chunks have
/// told it so: the servers that it asked and that answered so, with the epochs that they answered, in
/// that order. The target of a rebuild is asked first.
pub fn gatherings_end_at_too_many()
    ensures { GatheringsEnd }
{}

/// A gathering that has its bytes was given enough to make them, and by the right servers. A part: the
/// wanted bytes of each data chunk that has some; or those of all but one, and then by each other
/// server the repair layers of that one; or in the end whole chunks by as many servers as there are
/// data chunks. A rebuild's chunk: its repair layers by each other server, or whole chunks likewise.
pub fn gatherings_are_given_enough()
    ensures { GatheringsAreGiven }
{}

/// Each outcome but want of memory has its cause among what is kept of the call's answers: a reply or
/// a commit at its point, pins at its point, a reap at its point, a superseded version, no such
/// stripe; for a rebuild that a chunk was placed, or that the chunk is there, which the target said
/// first of all or when the chunk came; for lost tries all changes that were told, no fewer than the
/// tries. Missing servers are one more than there are parity chunks. A call that ends with its bytes,
/// with missing servers, or as a rebuild with its chunk, was told that its pass ended.
pub fn outcomes_have_causes()
    ensures { OutcomesHaveCauses }
{}

/// How often a gathering asks servers at most, and how often a call prepares and settles chunks.
pub fn calls_ask_few_times()
    ensures { AsksFewTimes }
{}

/// A gathering that is told in one entry stands for all that it was told.
pub fn cuts_change_no_act()
    ensures { CutsChangeNoAct }
{}

/// The steps that a call has left, by what it was told, fall at each of its steps, from its bound on;
/// after the look of a get or a read there are three for each server and pinned stripe, and one. Want
/// of memory in the coding before a step, which is told first, leaves no more.
pub fn steps_left_fall()
    ensures { (g : Shape) (max tries : ℕ) (job : Job) → StepsFall g max tries job }
{}

/// Each step at the directory or at a server is answered by an answer of its own kind. A look pins
/// no more stripes than the bound of its call, and a draw draws no more versions than the call touches.
pub fn places_answer_within_bounds()
    ensures { PlacesAnswer }
{}

/// A look is answered by pins only where its call reads, and lets only a put or a write begin to
/// write; only a write's commit is told that the object was changed.
pub fn places_answer_by_kind()
    ensures { PlacesAnswerByKind }
{}

/// A call that is told its answers step by step ends with want of memory only where memory was
/// wanting, in one of its steps or in the coding before one.
pub fn memory_is_blamed_only_where_it_was_wanting()
    ensures { MemoryWasWanting }
{}

/// A call ends with an outcome of its kind. Where it was told its answers step by step, the outcome
/// has its cause among them: as of any answers, and for want of memory that memory was wanting, for
/// too many missing chunks the gathering that found them, for lost tries as many changes as the write
/// has tries. A call that nothing of this hindered, and that was not reaped, is answered. With ample
/// memory it is told no more answers than its bound of steps.
pub fn calls_end_with_causes_step_by_step()
    ensures { (g : Shape) (max tries : ℕ) (job : Job) → OutcomesInSteps g max tries job }
{}

/// A call that is told its answers step by step leaves out none of its steps. It has its bytes only
/// after each stripe that its look pinned was gathered. A rebuild installs only after its gathering,
/// and after it was told that its version is current; it says that the chunk was placed with the epoch
/// that it was told. A put or a write draws after its look, a write when it has gathered the old bytes
/// that it keeps; a commit names the epochs that one prepare for each drawn version at each server
/// told, in that order; after a commit a call is answered only when it has made a settle for each.
pub fn calls_keep_order()
    ensures { (g : Shape) (max tries : ℕ) (job : Job) → CallsKeepOrder g max tries job }
{}

/// A rebuild that was told of no missing chunk but its target's, and that placed it, makes 2n + 3 steps with
/// n servers: its look, a question to each server, a fetch from each but its target, the confirm, the
/// install, and the step that tells where the chunk was placed.
pub fn rebuilds_make_steps()
    ensures { (g : Shape) (max tries : ℕ) (job : Job) → RebuildsMakeSteps g max tries job }
{}

/// Which answers end a call, and with which outcome: a look's reply, a commit, a reap, a version that
/// is superseded, the last change that a write may be told, the last step of a rebuild, a target that
/// has its chunk or is away, want of memory. Where one of the last three is told, the pass ends first,
/// if the call has one yet.
pub fn answers_end_calls()
    ensures answers { (g : Shape) (tries : ℕ) (job : Job) → AnswersEndCalls g tries job }
    ensures targets { (g : Shape) (tries : ℕ) (job : Job) → TargetsEndRebuilds g tries job }
{}

/// A get or a read that has gathered all its bytes ends with them; where too many servers lack their
/// chunk of a stripe, the call ends with that, and names the stripe and the servers.
pub fn gatherings_end_calls()
    ensures { (g : Shape) (tries : ℕ) (job : Job) → GatheringsEndCalls g tries job }
{}
