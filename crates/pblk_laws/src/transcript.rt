//! A text says what was written and what is kept.

ghost use Rattle.std.specs.Prelude.{ℕ, ◌≡◌, List};
ghost use Rattle.pblk_model.specs.declared.script.Command.{Command};
ghost use Rattle.pblk_model.specs.Script.{ScriptFits};
ghost use Rattle.pblk_model.specs.Text.{Transcript, text_of};
ghost use Rattle.pblk_model.specs.Transcript.{IsTranscript, TranscriptRelation};

/// Two transcripts of one script whose texts are equal have equal histories, and as many lines of
/// them are kept. The contents before may differ.
pub fn one_history()
    ensures { (size capacity : ℕ) (script : List (List Command))
        (before other : List (List ℕ)) (t u : Transcript) → ScriptFits capacity script
        → IsTranscript size script before t → IsTranscript size script other u
        → text_of t ≡ text_of u
        → (t.history ≡ u.history) × (t.kept ≡ u.kept) }
{}

/// Two transcripts of one script whose texts are equal are one: the same history, outcomes with
/// their words and fronts, opening, closing and number of kept lines. The contents before may
/// differ.
pub fn one_transcript()
    ensures { (size capacity : ℕ) (script : List (List Command))
        (before other : List (List ℕ)) (t u : Transcript) → ScriptFits capacity script
        → IsTranscript size script before t → IsTranscript size script other u
        → text_of t ≡ text_of u
        → t ≡ u }
{}

/// For a given script, contents before and text, at most one contents after meets the transcript
/// relation.
pub fn one_contents_after()
    ensures { (size capacity : ℕ) (script : List (List Command)) (before : List (List ℕ))
        (text : List ℕ) (x y : List (List ℕ)) → ScriptFits capacity script
        → TranscriptRelation size script before text x
        → TranscriptRelation size script before text y → x ≡ y }
{}
