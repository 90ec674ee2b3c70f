//! Worked transcripts: their texts, computed by the definitions alone.
ghost use Rattle.std.specs.Prelude.{◌≡◌};
ghost use Rattle.transcript_text.specs.Text.{text_of};
ghost use Rattle.transcript_text.specs.Worked.{put_then_get, put_then_get_text, refusals, refusals_text};

/// The texts of two transcripts, computed from the definition alone.
pub fn worked_texts()
    ensures put_then_get { text_of put_then_get ≡ put_then_get_text }
    ensures refusals { text_of refusals ≡ refusals_text }
{}
