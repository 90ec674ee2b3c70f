//! Writing a script as the one text that spells it.
ghost use Rattle.std.specs.Prelude.{◌≡◌, ◌++◌, ◌∷◌, [], codes, map, IfOk, OnOk, Option};
ghost use Rattle.std.specs.List.{flat_map};
ghost use Rattle.line_grammar.specs.Line.{CallLine, RebuildLine, StepLine, LeaveLine, SizeLine, TriesLine, CodeLine, ScheduleLine, EndLine, line_text};
ghost use Rattle.line_grammar.specs.Words.{run_word, content_word, call_words};
ghost use Rattle.line_grammar.specs.Lines.{spaced};
ghost use Rattle.line_grammar.specs.Numbers.{number_word};
ghost use Rattle.script_text.specs.Spelling.{client_lines, repairer_lines, optional_line, head_lines, spelling};
ghost use Rattle.hex.specs.Hex.{encode_lower};

use clay_grid::Geometry;
use itoa::Buffer;
use std::alloc::{AllocError, Global};
use store_map::{Call, ClientPart, Content, Name, Rebuild, RepairPart, Script, Token};

// Appends a number's decimal digits.
fn push_number(text: &mut Vec<u8>, number: u32) -> Result<(), AllocError>
    ensures { OnOk result (text.new.items ≡ text.old.items ++ number_word number) }
{
    let mut buffer = Buffer::new();
    text.extend_from_slice(buffer.format(number).as_bytes())
}

// Appends the bytes in lower-case hexadecimal digits.
fn push_digits(alloc: Global, text: &mut Vec<u8>, bytes: &[u8]) -> Result<(), AllocError>
    ensures { OnOk result (text.new.items ≡ text.old.items ++ encode_lower bytes.now) }
{
    let digits = hex::encode(alloc, bytes)?;
    text.extend_from_slice(digits.as_bytes())
}

// Appends a space and a number.
fn push_spaced(text: &mut Vec<u8>, number: u32) -> Result<(), AllocError>
    ensures { OnOk result (text.new.items ≡ text.old.items ++ 32 ∷ number_word number) }
{
    text.push(b' ')?;
    push_number(text, number)
}

// Appends a word and a number behind a space, and ends the line.
fn push_numbered(text: &mut Vec<u8>, word: &[u8], number: u32) -> Result<(), AllocError>
    ensures { OnOk result
        (text.new.items ≡ text.old.items ++ (spaced (word.now ∷ number_word number ∷ []) ++ 10 ∷ [])) }
{
    text.extend_from_slice(word)?;
    push_spaced(text, number)?;
    text.push(b'\n')?;
    Ok(())
}

// Appends a word and a name behind a space.
fn push_named(text: &mut Vec<u8>, word: &[u8], name: &Name) -> Result<(), AllocError>
    ensures { OnOk result (text.new.items ≡ text.old.items ++ spaced (word.now ∷ name.now ∷ [])) }
{
    text.extend_from_slice(word)?;
    text.push(b' ')?;
    text.extend_from_slice(name.as_bytes())
}

// Appends a byte's digits and a length, with a colon between.
fn push_run(alloc: Global, text: &mut Vec<u8>, byte: u8, length: u32) -> Result<(), AllocError>
    ensures { OnOk result (text.new.items ≡ text.old.items ++ run_word byte length) }
{
    push_digits(alloc, text, &[byte])?;
    text.push(b':')?;
    push_number(text, length)
}

// Appends the word of a call's data.
fn push_content(alloc: Global, text: &mut Vec<u8>, content: &Content) -> Result<(), AllocError>
    ensures { OnOk result (text.new.items ≡ text.old.items ++ content_word content.now) }
{
    match content {
        Content::Hex(bytes) => {
            text.extend_from_slice(b"hex:")?;
            push_digits(alloc, text, bytes.as_slice())
        }
        Content::Fill { byte, length } => {
            text.extend_from_slice(b"fill:")?;
            push_run(alloc, text, *byte, *length)
        }
        Content::Ramp { first, length } => {
            text.extend_from_slice(b"ramp:")?;
            push_run(alloc, text, *first, *length)
        }
    }
}

// Appends a space and the word of a call's data.
fn push_spaced_content(
    alloc: Global,
    text: &mut Vec<u8>,
    content: &Content,
) -> Result<(), AllocError>
    ensures { OnOk result (text.new.items ≡ text.old.items ++ 32 ∷ content_word content.now) }
{
    text.push(b' ')?;
    push_content(alloc, text, content)
}

// Appends the words of a call, without a line feed.
fn push_call_words(alloc: Global, text: &mut Vec<u8>, call: &Call) -> Result<(), AllocError>
    ensures { OnOk result (text.new.items ≡ text.old.items ++ spaced (call_words call.now)) }
{
    match call {
        Call::Put { name, content } => {
            push_named(text, b"put", name)?;
            push_spaced_content(alloc, text, content)
        }
        Call::Write {
            name,
            offset,
            content,
        } => {
            push_named(text, b"write", name)?;
            push_spaced(text, *offset)?;
            push_spaced_content(alloc, text, content)
        }
        Call::Get { name } => push_named(text, b"get", name),
        Call::ReadAt {
            name,
            offset,
            length,
        } => {
            push_named(text, b"read", name)?;
            push_spaced(text, *offset)?;
            push_spaced(text, *length)
        }
        Call::Stat { name } => push_named(text, b"stat", name),
        Call::Delete { name } => push_named(text, b"delete", name),
    }
}

// Appends the line of a call.
fn push_call(alloc: Global, text: &mut Vec<u8>, call: &Call) -> Result<(), AllocError>
    ensures { OnOk result (text.new.items ≡ text.old.items ++ line_text (CallLine call.now)) }
{
    push_call_words(alloc, text, call)?;
    text.push(b'\n')?;
    Ok(())
}

// Appends the line of a rebuild.
fn push_rebuild(text: &mut Vec<u8>, rebuild: &Rebuild) -> Result<(), AllocError>
    ensures { OnOk result (text.new.items ≡ text.old.items ++ line_text (RebuildLine rebuild.now)) }
{
    push_named(text, b"rebuild", &rebuild.name)?;
    push_spaced(text, rebuild.stripe)?;
    push_spaced(text, rebuild.server)?;
    text.push(b'\n')?;
    Ok(())
}

// Appends a line of the schedule.
fn push_token(text: &mut Vec<u8>, token: Token) -> Result<(), AllocError>
    ensures { OnOk result (text.new.items ≡ text.old.items ++ line_text (StepLine token)) }
{
    match token {
        Token::Client(i) => push_numbered(text, b"c", i),
        Token::Repairer(i) => push_numbered(text, b"r", i),
        Token::Sweep => text.extend_from_slice(b"s\n"),
        Token::Wipe(j) => push_numbered(text, b"wipe", j),
        Token::Down(j) => push_numbered(text, b"down", j),
        Token::Up(j) => push_numbered(text, b"up", j),
        Token::ReapClient(i) => push_numbered(text, b"reap c", i),
        Token::ReapRepairer(i) => push_numbered(text, b"reap r", i),
        Token::Drain => text.extend_from_slice(b"drain\n"),
    }
}

// Appends the code line.
fn push_code(text: &mut Vec<u8>, geometry: Geometry) -> Result<(), AllocError>
    ensures { OnOk result (text.new.items ≡ text.old.items ++ line_text (CodeLine geometry)) }
{
    text.extend_from_slice(b"code")?;
    push_spaced(text, geometry.k())?;
    push_spaced(text, geometry.m())?;
    push_spaced(text, geometry.w())?;
    text.push(b'\n')?;
    Ok(())
}

// Appends the line of the greatest length of an object, if there is one.
fn push_size(text: &mut Vec<u8>, size: Option<u32>) -> Result<(), AllocError>
    ensures { OnOk result
        (text.new.items ≡ text.old.items ++ flat_map line_text (optional_line SizeLine size)) }
{
    match size {
        Some(size) => push_numbered(text, b"size", size),
        None => Ok(()),
    }
}

// Appends the line of the number of tries, if there is one.
fn push_tries(text: &mut Vec<u8>, tries: Option<u32>) -> Result<(), AllocError>
    ensures { OnOk result
        (text.new.items ≡ text.old.items ++ flat_map line_text (optional_line TriesLine tries)) }
{
    match tries {
        Some(tries) => push_numbered(text, b"tries", tries),
        None => Ok(()),
    }
}

// Appends the line of a step limit, if there is one.
fn push_leave(text: &mut Vec<u8>, steps: Option<u32>) -> Result<(), AllocError>
    ensures { OnOk result
        (text.new.items ≡ text.old.items ++ flat_map line_text (optional_line LeaveLine steps)) }
{
    match steps {
        Some(steps) => push_numbered(text, b"leave", steps),
        None => Ok(()),
    }
}

// Appends the lines of calls.
fn push_calls(alloc: Global, text: &mut Vec<u8>, calls: &[Call]) -> Result<(), AllocError>
    ensures { OnOk result
        (text.new.items ≡ text.old.items ++ flat_map line_text (map CallLine calls.now)) }
{
    for call in calls {
        push_call(alloc, text, call)?;
    }
    Ok(())
}

// Appends the lines of rebuilds.
fn push_rebuilds(text: &mut Vec<u8>, rebuilds: &[Rebuild]) -> Result<(), AllocError>
    ensures { OnOk result
        (text.new.items ≡ text.old.items ++ flat_map line_text (map RebuildLine rebuilds.now)) }
{
    for rebuild in rebuilds {
        push_rebuild(text, rebuild)?;
    }
    Ok(())
}

// Appends the lines of the schedule.
fn push_schedule(text: &mut Vec<u8>, tokens: &[Token]) -> Result<(), AllocError>
    ensures { OnOk result
        (text.new.items ≡ text.old.items ++ flat_map line_text (map StepLine tokens.now)) }
{
    for token in tokens {
        push_token(text, *token)?;
    }
    Ok(())
}

// Appends a client's block.
fn push_client(alloc: Global, text: &mut Vec<u8>, part: &ClientPart) -> Result<(), AllocError>
    ensures { OnOk result
        (text.new.items ≡ text.old.items ++ flat_map line_text (client_lines part.now)) }
{
    text.extend_from_slice(b"client\n")?;
    match part.calls.as_slice().split_last() {
        None => Ok(()),
        Some((last, calls)) => {
            push_calls(alloc, text, calls)?;
            push_leave(text, part.leave)?;
            push_call(alloc, text, last)
        }
    }
}

// Appends a repairer's block.
fn push_repairer(text: &mut Vec<u8>, part: &RepairPart) -> Result<(), AllocError>
    ensures { OnOk result
        (text.new.items ≡ text.old.items ++ flat_map line_text (repairer_lines part.now)) }
{
    text.extend_from_slice(b"repairer\n")?;
    match part.calls.as_slice().split_last() {
        None => Ok(()),
        Some((last, rebuilds)) => {
            push_rebuilds(text, rebuilds)?;
            push_leave(text, part.leave)?;
            push_rebuild(text, last)
        }
    }
}

// Appends the blocks of clients.
fn push_clients(alloc: Global, text: &mut Vec<u8>, parts: &[ClientPart]) -> Result<(), AllocError>
    ensures { OnOk result
        (text.new.items ≡ text.old.items ++ flat_map line_text (flat_map client_lines parts.now)) }
{
    for part in parts {
        push_client(alloc, text, part)?;
    }
    Ok(())
}

// Appends the blocks of repairers.
fn push_repairers(text: &mut Vec<u8>, parts: &[RepairPart]) -> Result<(), AllocError>
    ensures { OnOk result
        (text.new.items ≡ text.old.items ++ flat_map line_text (flat_map repairer_lines parts.now)) }
{
    for part in parts {
        push_repairer(text, part)?;
    }
    Ok(())
}

// Appends the lines before the blocks to a text without bytes.
fn push_head(text: &mut Vec<u8>, script: &Script) -> Result<(), AllocError>
    requires { text.old.items ≡ [] }
    ensures { OnOk result (text.new.items ≡ flat_map line_text (head_lines script.now)) }
{
    push_numbered(text, b"clay", script.form)?;
    push_code(text, script.geometry)?;
    push_size(text, script.size)?;
    push_tries(text, script.tries)
}

// Appends the lines behind the blocks.
fn push_tail(text: &mut Vec<u8>, tokens: &[Token]) -> Result<(), AllocError>
    ensures { OnOk result (text.new.items ≡ text.old.items
        ++ flat_map line_text (ScheduleLine ∷ map StepLine tokens.now) ++ line_text EndLine) }
{
    text.extend_from_slice(b"schedule\n")?;
    push_schedule(text, tokens)?;
    text.extend_from_slice(b"end\n")
}

// Appends all lines to a text without bytes.
fn push_script(alloc: Global, text: &mut Vec<u8>, script: &Script) -> Result<(), AllocError>
    requires { text.old.items ≡ [] }
    ensures { OnOk result (text.new.items ≡ spelling script.now) }
{
    push_head(text, script)?;
    push_clients(alloc, text, script.clients.as_slice())?;
    push_repairers(text, script.repairers.as_slice())?;
    push_tail(text, script.schedule.as_slice())
}

/// The bytes that spell the script, which may be of any values, also beyond the limits. A step limit
/// of a block without calls isn't written. Takes time in proportion to the bytes.
pub fn write_script(alloc: Global, script: &Script) -> Result<Vec<u8>, AllocError>
    ensures { IfOk result (λ text. text.items ≡ spelling script.now) }
{
    let mut text = Vec::new(alloc);
    push_script(alloc, &mut text, script)?;
    Ok(text)
}
