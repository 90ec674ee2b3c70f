//! Reading a script that is a whole text, or the front of one.
ghost use Rattle.std.specs.Prelude.{◌≡◌, ◌≢◌, ◌<◌, ◌≤◌, ◌^◌, ℕ, [], ◌∷◌, ◌++◌, drop, length, IfOk, IfErr, IfSome, None};
ghost use Rattle.std.specs.List.{flat_map};
ghost use Rattle.clay_grid.specs.Limits.{IsGeometry};
ghost use Rattle.script_text.specs.FirstFault.{IsFault, IsFrontFault, OrMemory};
ghost use Rattle.line_grammar.specs.Forms.{IsForm};
ghost use Rattle.line_grammar.specs.Lines.{spaced};
ghost use Rattle.line_grammar.specs.Line.{ClayLine, CodeLine, line_words, line_text};
ghost use Rattle.script_text.specs.Spelling.{script_lines, spelling};
ghost use Rattle.line_grammar.specs.Values.{IsScript};
ghost use Rattle.store_map.specs.Naming.{IsValid};

use crate::script_fault::ScriptFault;
use crate::script_reader::Reader;
use clay_grid::Geometry;
use line_grammar::{FaultKind, is_text, read_code, split_at_first};
use std::alloc::Global;
use store_map::Script;

/// What the first two lines say, and the text behind them.
#[derive(Clone, Copy)]
struct FirstLines<'a> {
    form: u32,
    geometry: Geometry,
    rest: &'a [u8],
}

/// A script, the number of its lines, and the length of its text.
#[derive(Drop)]
struct ScriptRead {
    script: Script,
    lines: u32,
    length: usize,
}

// The form of a script with this first line.
fn form_of(line: &[u8]) -> Option<u32>
    ensures some { IfSome result (λ form. IsForm form × (line.now ≡ spaced (line_words (ClayLine form)))) }
    ensures none { result ≡ None → (form : ℕ) → IsForm form → line.now ≢ spaced (line_words (ClayLine form)) }
{
    if is_text(line, b"clay 1") {
        return Some(1);
    }
    if is_text(line, b"clay 2") {
        return Some(2);
    }
    None
}

// Reads the first two lines.
fn read_first_lines(bytes: &[u8]) -> Result<FirstLines<'_>, ScriptFault>
    ensures form { IfOk result (λ opening. IsForm opening.form) }
    ensures geometry { IfOk result (λ opening. IsGeometry opening.geometry) }
    ensures spelled { IfOk result (λ opening.
        bytes.now ≡ flat_map line_text (ClayLine opening.form ∷ CodeLine opening.geometry ∷ []) ++ opening.rest.now) }
    ensures fault { IfErr result (OrMemory (IsFrontFault bytes.now)) }
{
    let Some((first, behind)) = split_at_first(b'\n', bytes) else {
        return Err(ScriptFault::at(1, FaultKind::MissingEnd));
    };
    let Some(form) = form_of(first) else {
        return Err(ScriptFault::at(1, FaultKind::Syntax));
    };
    let Some((second, rest)) = split_at_first(b'\n', behind) else {
        return Err(ScriptFault::at(2, FaultKind::MissingEnd));
    };
    match read_code(second) {
        Ok(geometry) => Ok(FirstLines {
            form,
            geometry,
            rest,
        }),
        Err(kind) => Err(ScriptFault::at(2, kind)),
    }
}

// The script that the text up to the first line `end` spells, read line by line.
fn read_to_end(alloc: Global, bytes: &[u8]) -> Result<ScriptRead, ScriptFault>
    ensures values { IfOk result (λ read. IsScript read.script) }
    ensures valid { IfOk result (λ read. IsValid read.script) }
    ensures lines { IfOk result (λ read. read.lines ≡ length (script_lines read.script)) }
    ensures few { IfOk result (λ read. read.lines < 2 ^ 31) }
    ensures length { IfOk result (λ read. read.length ≡ length (spelling read.script)) }
    ensures spelled { IfOk result (λ read.
        bytes.now ≡ spelling read.script ++ drop read.length bytes.now) }
    ensures fault { IfErr result (OrMemory (IsFrontFault bytes.now)) }
{
    let opening = match read_first_lines(bytes) {
        Ok(opening) => opening,
        Err(fault) => return Err(fault),
    };
    let mut reader = Reader::new(alloc, opening.form, opening.geometry);
    let mut rest = opening.rest;
    let mut lines: u32 = 2;
    while !reader.has_ended() {
        let Some((line, behind)) = split_at_first(b'\n', rest) else {
            drop(reader);
            return Err(ScriptFault::at(lines + 1, FaultKind::MissingEnd));
        };
        match reader.take_line(alloc, line) {
            Ok(()) => {}
            Err(kind) => {
                drop(reader);
                return Err(ScriptFault::at(lines + 1, kind));
            }
        }
        rest = behind;
        lines += 1;
    }
    Ok(ScriptRead {
        script: reader.into_script(),
        lines,
        length: bytes.len() - rest.len(),
    })
}

/// The script that all of the bytes spell, or else the first faulty line, counted from 1, and what
/// is wrong with it. Want of memory can come in place of any answer. Takes time in proportion to the
/// bytes, and no memory but the script's own.
pub fn read_script(alloc: Global, bytes: &[u8]) -> Result<Script, ScriptFault>
    ensures spelled { IfOk result (λ script. bytes.now ≡ spelling script) }
    ensures values { IfOk result IsScript }
    ensures valid { IfOk result IsValid }
    ensures fault { IfErr result (OrMemory (IsFault bytes.now)) }
{
    let read = match read_to_end(alloc, bytes) {
        Ok(read) => read,
        Err(fault) => return Err(fault),
    };
    let ScriptRead {
        script,
        lines,
        length,
    } = read;
    if length < bytes.len() {
        drop(script);
        return Err(ScriptFault::at(lines + 1, FaultKind::Syntax));
    }
    Ok(script)
}

/// The script that the bytes up to the first line `end` spell, and the number of those bytes, with
/// the line feed behind `end`. What follows them may be anything and isn't looked at. Where no front
/// is a script, the first faulty line is named as by [`read_script`].
pub fn read_front(alloc: Global, bytes: &[u8]) -> Result<(Script, usize), ScriptFault>
    ensures spelled { IfOk result (λ read. bytes.now ≡ spelling read.0 ++ drop read.1 bytes.now) }
    ensures length { IfOk result (λ read. read.1 ≡ length (spelling read.0)) }
    ensures values { IfOk result (λ read. IsScript read.0) }
    ensures valid { IfOk result (λ read. IsValid read.0) }
    ensures fault { IfErr result (OrMemory (IsFrontFault bytes.now)) }
{
    match read_to_end(alloc, bytes) {
        Ok(read) => {
            let ScriptRead { script, length, .. } = read;
            Ok((script, length))
        }
        Err(fault) => Err(fault),
    }
}
