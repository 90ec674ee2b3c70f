//! The commands' names.
ghost use Rattle.std.specs.Prelude.{◌≡◌, ◌≢◌, MatchOption, map};
ghost use Rattle.clay_words.specs.Names.{ids_of, word_of};
ghost use Rattle.clay_words.specs.declared.word_names.Name.{Name};

/// The name of a command.
#[derive(Clone, Copy)]
pub(crate) enum Name {
    Play,
    Run,
    Verify,
    Chunks,
    Recover,
    Generate,
    Trial,
    AloofChunks,
    AloofRepair,
}

/// All of them.
pub(crate) const NAMES: [Name; 9] = [
    Name::Play,
    Name::Run,
    Name::Verify,
    Name::Chunks,
    Name::Recover,
    Name::Generate,
    Name::Trial,
    Name::AloofChunks,
    Name::AloofRepair,
];

impl Name {
    /// The word that the command is asked for by.
    pub(crate) fn word<'a>(self) -> &'a str
        ensures { result.now ≡ word_of self }
    {
        match self {
            Name::Play => "play",
            Name::Run => "run",
            Name::Verify => "verify",
            Name::Chunks => "chunks",
            Name::Recover => "recover",
            Name::Generate => "gen",
            Name::Trial => "trial",
            Name::AloofChunks => "chunksd",
            Name::AloofRepair => "repaird",
        }
    }

    /// What its numbers are held under, in the order of their words.
    pub(crate) fn ids<'a>(self) -> &'a [&'a str]
        ensures { map (λ id. id.now) result.now ≡ ids_of self }
    {
        match self {
            Name::Play => &[],
            Name::Run => &["workers"],
            Name::Verify => &[],
            Name::Chunks => &["k", "m", "w"],
            Name::Recover => &["k", "m", "w"],
            Name::Generate => &["start", "size"],
            Name::Trial => &["start", "size", "workers"],
            Name::AloofChunks => &["k", "m", "d", "w"],
            Name::AloofRepair => &["k", "m", "d", "w", "lost"],
        }
    }
}

/// The name that a word is, if it is one.
pub(crate) fn name_of(word: &str) -> Option<Name>
    ensures { MatchOption result ((name : Name) → word.now ≢ word_of name) (λ name. word.now ≡ word_of name) }
{
    for name in NAMES {
        if word == name.word() {
            return Some(name);
        }
    }
    None
}
