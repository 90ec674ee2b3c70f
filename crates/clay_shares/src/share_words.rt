//! What the program's words ask for.
use line_grammar::read_number;
use share_run::CodeAsked;

/// A command, with the files that it names.
#[derive(Clone, Copy)]
pub(crate) enum Asked<'a> {
    /// `cut K M FILE FOLDER`, then options.
    Cut {
        code: CodeAsked,
        path: &'a str,
        folder: &'a str,
    },
    /// `join FOLDER FILE`.
    Join {
        folder: &'a str,
        path: &'a str,
    },
    /// `mend FOLDER I`, with the share's number.
    Mend {
        folder: &'a str,
        number: u32,
    },
    /// `check FOLDER`.
    Check {
        folder: &'a str,
    },
}

fn number_of(word: &str) -> Option<u32> {
    read_number(word.as_bytes())
}

// A code without options.
fn bare_code(k: &str, m: &str) -> Option<CodeAsked> {
    Some(CodeAsked {
        k: number_of(k)?,
        m: number_of(m)?,
        helpers: None,
        width: None,
    })
}

// A code with one more option, which stands once at most.
fn with_option(code: CodeAsked, name: &str, number: u32) -> Option<CodeAsked> {
    match name {
        "--helpers" if code.helpers.is_none() => Some(CodeAsked {
            helpers: Some(number),
            ..code
        }),
        "--width" if code.width.is_none() => Some(CodeAsked {
            width: Some(number),
            ..code
        }),
        _ => None,
    }
}

// A code with options, each a name and a number.
fn with_options(bare: CodeAsked, options: &[String]) -> Option<CodeAsked> {
    let mut code = bare;
    for option in options.chunks(2) {
        let [name, number] = option else { return None };
        code = with_option(code, name.as_str(), number_of(number.as_str())?)?;
    }
    Some(code)
}

fn cut_asked(words: &[String]) -> Option<Asked> {
    let [k, m, path, folder, options @ ..] = words else {
        return None;
    };
    let bare = bare_code(k.as_str(), m.as_str())?;
    Some(Asked::Cut {
        code: with_options(bare, options)?,
        path: path.as_str(),
        folder: folder.as_str(),
    })
}

fn join_asked(words: &[String]) -> Option<Asked> {
    let [folder, path] = words else { return None };
    Some(Asked::Join {
        folder: folder.as_str(),
        path: path.as_str(),
    })
}

fn mend_asked(words: &[String]) -> Option<Asked> {
    let [folder, number] = words else { return None };
    Some(Asked::Mend {
        folder: folder.as_str(),
        number: number_of(number.as_str())?,
    })
}

fn check_asked(words: &[String]) -> Option<Asked> {
    let [folder] = words else { return None };
    Some(Asked::Check {
        folder: folder.as_str(),
    })
}

/// What the words after the program's name ask for, if they are a command's.
pub(crate) fn asked_by(words: &[String]) -> Option<Asked> {
    let (name, rest) = words.split_first()?;
    match name.as_str() {
        "cut" => cut_asked(rest),
        "join" => join_asked(rest),
        "mend" => mend_asked(rest),
        "check" => check_asked(rest),
        _ => None,
    }
}
