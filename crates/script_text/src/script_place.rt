//! Which line may stand behind which in a script, by its first word.
ghost use Rattle.std.specs.Prelude.{◌≡◌, bytes_eq};
ghost use Rattle.script_text.specs.Kinds.{is_call_word, is_step_word, head_named, frame_named, kind_named};
ghost use Rattle.script_text.specs.Place.{next_place, next_block, next_repairer};

/// What a line of a script is, by its first word.
#[derive(Clone, Copy, PartialEq, Eq)]
pub enum LineKind {
    Clay,
    Code,
    Size,
    Tries,
    Client,
    Repairer,
    Leave,
    Call,
    Rebuild,
    Schedule,
    Step,
    End,
}

/// The line behind which the next one stands.
#[derive(Clone, Copy, PartialEq, Eq)]
pub enum ScriptPlace {
    Code,
    Size,
    Tries,
    /// The line of a client, or one of its calls without a step limit.
    Client,
    /// A step limit, which waits for the client's last call.
    ClientLimit(u32),
    /// The last call of a client, which has a step limit.
    ClientEnd,
    Repairer,
    RepairerLimit(u32),
    RepairerEnd,
    Schedule,
    End,
}

// Whether the word is this one.
fn is_word(word: &[u8], other: &[u8]) -> bool
    ensures { result ≡ bytes_eq word.now other.now }
{
    word == other
}

// Whether a call of a client begins with this word.
fn is_call_word(word: &[u8]) -> bool
    ensures { result ≡ is_call_word word.now }
{
    is_word(word, b"put")
        || is_word(word, b"write")
        || is_word(word, b"get")
        || is_word(word, b"read")
        || is_word(word, b"stat")
        || is_word(word, b"delete")
}

// Whether a line of the schedule begins with this word.
fn is_step_word(word: &[u8]) -> bool
    ensures { result ≡ is_step_word word.now }
{
    is_word(word, b"c")
        || is_word(word, b"r")
        || is_word(word, b"s")
        || is_word(word, b"wipe")
        || is_word(word, b"down")
        || is_word(word, b"up")
        || is_word(word, b"reap")
        || is_word(word, b"drain")
}

// The kind of the lines that begin with this word and stand before the blocks.
fn head_named(word: &[u8]) -> Option<LineKind>
    ensures { result ≡ head_named word.now }
{
    if is_word(word, b"size") {
        Some(LineKind::Size)
    } else if is_word(word, b"tries") {
        Some(LineKind::Tries)
    } else if is_word(word, b"clay") {
        Some(LineKind::Clay)
    } else if is_word(word, b"code") {
        Some(LineKind::Code)
    } else {
        None
    }
}

// The kind of the lines that begin with this word and stand outside a block or begin one.
fn frame_named(word: &[u8]) -> Option<LineKind>
    ensures { result ≡ frame_named word.now }
{
    if is_word(word, b"client") {
        Some(LineKind::Client)
    } else if is_word(word, b"repairer") {
        Some(LineKind::Repairer)
    } else if is_word(word, b"schedule") {
        Some(LineKind::Schedule)
    } else if is_word(word, b"end") {
        Some(LineKind::End)
    } else {
        head_named(word)
    }
}

/// The kind of the lines that begin with this word.
pub fn kind_named(word: &[u8]) -> Option<LineKind>
    ensures { result ≡ kind_named word.now }
{
    if is_step_word(word) {
        Some(LineKind::Step)
    } else if is_call_word(word) {
        Some(LineKind::Call)
    } else if is_word(word, b"rebuild") {
        Some(LineKind::Rebuild)
    } else if is_word(word, b"leave") {
        Some(LineKind::Leave)
    } else {
        frame_named(word)
    }
}

/// The place behind a line of this kind, if one may stand behind that place. A step limit has this
/// number.
pub fn next_place(place: ScriptPlace, kind: LineKind, steps: u32) -> Option<ScriptPlace>
    ensures { result ≡ next_place place kind steps }
{
    match place {
        ScriptPlace::Code => match kind {
            LineKind::Size => Some(ScriptPlace::Size),
            LineKind::Tries => Some(ScriptPlace::Tries),
            _ => next_block(kind),
        },
        ScriptPlace::Size => match kind {
            LineKind::Tries => Some(ScriptPlace::Tries),
            _ => next_block(kind),
        },
        ScriptPlace::Tries | ScriptPlace::ClientEnd => next_block(kind),
        ScriptPlace::Client => match kind {
            LineKind::Call => Some(ScriptPlace::Client),
            LineKind::Leave => Some(ScriptPlace::ClientLimit(steps)),
            _ => next_block(kind),
        },
        ScriptPlace::ClientLimit(_) => match kind {
            LineKind::Call => Some(ScriptPlace::ClientEnd),
            _ => None,
        },
        ScriptPlace::Repairer => match kind {
            LineKind::Rebuild => Some(ScriptPlace::Repairer),
            LineKind::Leave => Some(ScriptPlace::RepairerLimit(steps)),
            _ => next_repairer(kind),
        },
        ScriptPlace::RepairerLimit(_) => match kind {
            LineKind::Rebuild => Some(ScriptPlace::RepairerEnd),
            _ => None,
        },
        ScriptPlace::RepairerEnd => next_repairer(kind),
        ScriptPlace::Schedule => match kind {
            LineKind::Step => Some(ScriptPlace::Schedule),
            LineKind::End => Some(ScriptPlace::End),
            _ => None,
        },
        ScriptPlace::End => None,
    }
}

// The place behind a line that may stand where a repairer may begin.
fn next_repairer(kind: LineKind) -> Option<ScriptPlace>
    ensures { result ≡ next_repairer kind }
{
    match kind {
        LineKind::Repairer => Some(ScriptPlace::Repairer),
        LineKind::Schedule => Some(ScriptPlace::Schedule),
        _ => None,
    }
}

// The place behind a line that may stand where a client may begin.
fn next_block(kind: LineKind) -> Option<ScriptPlace>
    ensures { result ≡ next_block kind }
{
    match kind {
        LineKind::Client => Some(ScriptPlace::Client),
        _ => next_repairer(kind),
    }
}
