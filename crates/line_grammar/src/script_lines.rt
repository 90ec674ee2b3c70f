//! Lines that are no client's call: the code, rebuilds, steps of a schedule, numbers behind a word.
ghost use Rattle.std.specs.Prelude.{◌≡◌, ◌++◌, ℕ, codes};
ghost use Rattle.line_grammar.specs.Numbers.{number_word};
ghost use Rattle.line_grammar.specs.Reads.{ReadsNumber};
ghost use Rattle.line_grammar.specs.ReadsLine.{ReadsNumbered, ReadsRebuild, ReadsToken, ReadsCode};

use crate::call_words::read_name;
use crate::line_fault::FaultKind;
use crate::number::{is_number, small_number};
use crate::split::split_at_first;
use clay_grid::Geometry;
use std::alloc::Global;
use store_map::{Rebuild, Token, is_name};

const CODE: &[u8] = b"code ";

const REBUILD: &[u8] = b"rebuild ";

const CLIENT: &[u8] = b"c ";

const REPAIRER: &[u8] = b"r ";

const WIPE: &[u8] = b"wipe ";

const DOWN: &[u8] = b"down ";

const UP: &[u8] = b"up ";

const REAP_CLIENT: &[u8] = b"reap c ";

const REAP_REPAIRER: &[u8] = b"reap r ";

// The number that a word is.
fn number_of(word: &[u8]) -> Result<u32, FaultKind>
    ensures { ReadsNumber word.now result }
{
    if !is_number(word) {
        return Err(FaultKind::Syntax);
    }
    match small_number(word) {
        Some(number) => Ok(number),
        None => Err(FaultKind::Limit),
    }
}

/// The number behind these first bytes of a line.
pub fn read_numbered(first: &[u8], line: &[u8]) -> Result<u32, FaultKind>
    ensures { ReadsNumbered first.now line.now result }
{
    match line.strip_prefix(first) {
        Some(word) => number_of(word),
        None => Err(FaultKind::Syntax),
    }
}

// The rebuild that `rebuild` and these words spell.
fn read_rebuild_words(alloc: Global, words: &[u8]) -> Result<Rebuild, FaultKind>
    ensures { ReadsRebuild (codes "rebuild " ++ words.now) result }
{
    let Some((name, rest)) = split_at_first(b' ', words) else {
        return Err(FaultKind::Syntax);
    };
    let Some((stripe, server)) = split_at_first(b' ', rest) else {
        return Err(FaultKind::Syntax);
    };
    if !is_name(name) {
        return Err(FaultKind::Syntax);
    }
    if !is_number(stripe) {
        return Err(FaultKind::Syntax);
    }
    if !is_number(server) {
        return Err(FaultKind::Syntax);
    }
    let Some(stripe) = small_number(stripe) else {
        return Err(FaultKind::Limit);
    };
    let Some(server) = small_number(server) else {
        return Err(FaultKind::Limit);
    };
    let name = read_name(alloc, name)?;
    Ok(Rebuild {
        name,
        stripe,
        server,
    })
}

/// The rebuild of a line, without its line feed.
pub fn read_rebuild(alloc: Global, line: &[u8]) -> Result<Rebuild, FaultKind>
    ensures { ReadsRebuild line.now result }
{
    match line.strip_prefix(REBUILD) {
        Some(words) => read_rebuild_words(alloc, words),
        None => Err(FaultKind::Syntax),
    }
}

// The step `c` of the client that a word numbers.
fn read_client_step(word: &[u8]) -> Result<Token, FaultKind>
    ensures { (form : ℕ) → ReadsToken form (codes "c " ++ word.now) result }
{
    let client = number_of(word)?;
    Ok(Token::Client(client))
}

// The step `r` of the repairer that a word numbers.
fn read_repairer_step(word: &[u8]) -> Result<Token, FaultKind>
    ensures { (form : ℕ) → ReadsToken form (codes "r " ++ word.now) result }
{
    let repairer = number_of(word)?;
    Ok(Token::Repairer(repairer))
}

// The wipe of the server that a word numbers.
fn read_wipe(word: &[u8]) -> Result<Token, FaultKind>
    ensures { (form : ℕ) → ReadsToken form (codes "wipe " ++ word.now) result }
{
    let server = number_of(word)?;
    Ok(Token::Wipe(server))
}

// The making away of the server that a word numbers, in a script of form 2.
fn read_down(word: &[u8]) -> Result<Token, FaultKind>
    ensures { ReadsToken 2 (codes "down " ++ word.now) result }
{
    let server = number_of(word)?;
    Ok(Token::Down(server))
}

// The making present of the server that a word numbers, in a script of form 2.
fn read_up(word: &[u8]) -> Result<Token, FaultKind>
    ensures { ReadsToken 2 (codes "up " ++ word.now) result }
{
    let server = number_of(word)?;
    Ok(Token::Up(server))
}

// The reap of the client that a word numbers.
fn read_client_reap(word: &[u8]) -> Result<Token, FaultKind>
    ensures { (form : ℕ) → ReadsToken form (codes "reap c " ++ word.now) result }
{
    let client = number_of(word)?;
    Ok(Token::ReapClient(client))
}

// The reap of the repairer that a word numbers.
fn read_repairer_reap(word: &[u8]) -> Result<Token, FaultKind>
    ensures { (form : ℕ) → ReadsToken form (codes "reap r " ++ word.now) result }
{
    let repairer = number_of(word)?;
    Ok(Token::ReapRepairer(repairer))
}

/// The step of a line of the schedule, without its line feed, in a script of this form.
pub fn read_token(form: u32, line: &[u8]) -> Result<Token, FaultKind>
    ensures { ReadsToken form line.now result }
{
    if let Some(word) = line.strip_prefix(CLIENT) {
        return read_client_step(word);
    }
    if let Some(word) = line.strip_prefix(REPAIRER) {
        return read_repairer_step(word);
    }
    if let Some(word) = line.strip_prefix(WIPE) {
        return read_wipe(word);
    }
    if let Some(word) = line.strip_prefix(DOWN) {
        return if form == 2 {
            read_down(word)
        } else {
            Err(FaultKind::Syntax)
        };
    }
    if let Some(word) = line.strip_prefix(UP) {
        return if form == 2 {
            read_up(word)
        } else {
            Err(FaultKind::Syntax)
        };
    }
    if let Some(word) = line.strip_prefix(REAP_CLIENT) {
        return read_client_reap(word);
    }
    if let Some(word) = line.strip_prefix(REAP_REPAIRER) {
        return read_repairer_reap(word);
    }
    if line == b"s".as_slice() {
        return Ok(Token::Sweep);
    }
    if line == b"drain".as_slice() {
        Ok(Token::Drain)
    } else {
        Err(FaultKind::Syntax)
    }
}

// The geometry that `code` and these words spell.
fn read_code_words(words: &[u8]) -> Result<Geometry, FaultKind>
    ensures { ReadsCode (codes "code " ++ words.now) result }
{
    let Some((k, rest)) = split_at_first(b' ', words) else {
        return Err(FaultKind::Syntax);
    };
    let Some((m, w)) = split_at_first(b' ', rest) else {
        return Err(FaultKind::Syntax);
    };
    if !is_number(k) {
        return Err(FaultKind::Syntax);
    }
    if !is_number(m) {
        return Err(FaultKind::Syntax);
    }
    if !is_number(w) {
        return Err(FaultKind::Syntax);
    }
    let Some(k) = small_number(k) else {
        return Err(FaultKind::Limit);
    };
    let Some(m) = small_number(m) else {
        return Err(FaultKind::Limit);
    };
    let Some(w) = small_number(w) else {
        return Err(FaultKind::Limit);
    };
    match Geometry::new(k, m, w) {
        Ok(geometry) => Ok(geometry),
        Err(_) => Err(FaultKind::Geometry),
    }
}

/// The geometry of a code line, without its line feed.
pub fn read_code(line: &[u8]) -> Result<Geometry, FaultKind>
    ensures { ReadsCode line.now result }
{
    match line.strip_prefix(CODE) {
        Some(words) => read_code_words(words),
        None => Err(FaultKind::Syntax),
    }
}
