//! What the rules say, as functions that do nothing and whose contracts are the laws.

ghost use Rattle.std.specs.Prelude.{◌≡◌, ◌↔◌, ℕ, List};
ghost use Rattle.store_map.specs.declared.script.Script.{Script};
ghost use Rattle.store_map.specs.declared.call_name.CallName.{CallName};
ghost use Rattle.store_map.specs.declared.cause.Triple.{Triple};
ghost use Rattle.store_map.specs.declared.line.XLine.{XLine};
ghost use Rattle.store_map.specs.declared.line.TLine.{TLine};
ghost use Rattle.store_map.specs.declared.transcript.Transcript.{Transcript};
ghost use Rattle.hist_rules.specs.declared.verdict.Verdict.TheVariants.{Legal};
ghost use Rattle.hist_rules.specs.Verdict.{verdict_of};
ghost use Rattle.hist_rules.specs.CallOrder.{KeepsCallOrder};
ghost use Rattle.hist_rules.specs.PairLaws.{OrdersPairs};
ghost use Rattle.hist_rules.specs.IsHistory.{IsHistory};
ghost use Rattle.hist_rules.specs.LineLaws.{HasEachReply};
ghost use Rattle.hist_rules.specs.SpoiledLaws.{ReplyChanged, AnswerLeftOut, OutcomeLeftOut, ObjectsChanged, TakesChanged, ServersLeftOut, RacesLeftOut};

/// A transcript is legal exactly where it is a history: every call in its order, the plain map's
/// replies, a cause for each refusal, and sums that add up.
pub fn legal_transcripts_are_histories()
    ensures { (script : Script) (t : Transcript) → (verdict_of script t ≡ Legal) ↔ IsHistory script t }
{}

/// In the order of a history the points of any two lines rise, as do the numbers of any two lines
/// of a client. No call is answered twice, and no actor has two calls without a reply.
pub fn histories_order_all_lines()
    ensures { (script : Script) (t : Transcript) → KeepsCallOrder script t → OrdersPairs t }
{}

/// No line of a history is left out where the replies are held against the plain map's.
pub fn each_line_has_a_reply()
    ensures { (script : Script) (t : Transcript) → KeepsCallOrder script t → HasEachReply script t }
{}

/// Where two transcripts have the same calls in their histories, and another reply at one of them,
/// at most one is a history.
pub fn a_changed_reply_breaks_a_history()
    ensures { (script : Script) (t other : Transcript) → IsHistory script t → ReplyChanged t other → ¬ IsHistory script other }
{}

/// A transcript isn't a history where an answer is left out and a later call of that actor has its
/// line, or where no line says what became of a call that took subchunks.
pub fn a_line_left_out_breaks_a_history()
    ensures answer { (script : Script) (t : Transcript) (call later : CallName) → AnswerLeftOut t call later → ¬ IsHistory script t }
    ensures outcome { (script : Script) (t : Transcript) (call : CallName) → OutcomeLeftOut t call → ¬ IsHistory script t }
{}

/// A history's objects at the end and sums of takes can't be others.
pub fn changed_ends_break_a_history()
    ensures objects { (script : Script) (t other : Transcript) → IsHistory script t → ObjectsChanged t other → ¬ IsHistory script other }
    ensures takes { (script : Script) (t other : Transcript) (line : TLine) → IsHistory script t → TakesChanged t other line → ¬ IsHistory script other }
{}

/// A transcript isn't a history where a refusal names too few servers, or a contended write too few
/// races; too many do the same.
pub fn a_short_refusal_breaks_a_history()
    ensures servers { (script : Script) (t : Transcript) (call : CallName) (missing : List Triple) → ServersLeftOut script t call missing → ¬ IsHistory script t }
    ensures races { (script : Script) (t : Transcript) (line : XLine) (pairs : List (ℕ × ℕ)) → RacesLeftOut script t line pairs → ¬ IsHistory script t }
{}
