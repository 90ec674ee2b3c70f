//! Texts whose lines tell how often they stand, so that a schedule of many steps is short.
use std::alloc::Global;
use std::str;
use std::test::Fail;

// A line, and how often it stands.
fn line_and_times(line: &[u8]) -> Result<(&[u8], u32), Fail> {
    match line.iter().position(|byte| *byte == b'*') {
        Some(at) => Ok((&line[..at], str::from_utf8(&line[at + 1..])?.parse()?)),
        None => Ok((line, 1)),
    }
}

/// Adds a line as often as it says.
pub fn add_line(text: &mut Vec<u8>, line: &[u8]) -> Result<(), Fail> {
    let (line, times) = line_and_times(line)?;
    for _ in 0..times {
        text.extend_from_slice(line)?;
        text.push(b'\n')?;
    }
    Ok(())
}

/// The text's lines, of which `c 0*11` stands for eleven lines `c 0`. Empty lines are left out.
pub fn unfolded(alloc: Global, text: &[u8]) -> Result<Vec<u8>, Fail> {
    let mut lines = Vec::new(alloc);
    for line in text.split(|byte| *byte == b'\n') {
        if !line.is_empty() {
            add_line(&mut lines, line)?;
        }
    }
    Ok(lines)
}
