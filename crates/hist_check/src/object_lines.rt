//! The rule on the objects at the end: they are the map's, in order of creation.
ghost use Rattle.std.specs.Prelude.{◌≡◌, [], ◌∷◌, None, Some, IfOk};
ghost use Rattle.store_map.specs.declared.line.LLine.{LLine};
ghost use Rattle.hist_rules.specs.ObjectsListed.{shown_object, shown_objects, first_difference};
ghost use Rattle.hist_rules.specs.declared.verdict.Verdict.TheVariants.{BadObject};

use hist_rules::Verdict;
use std::alloc::AllocError;
use store_map::{LLine, Name, ObjectMap};

// The line of an object with this name and so many bytes.
fn object_line(name: &Name, length: u64) -> Result<LLine, AllocError>
    ensures { IfOk result (λ line. line ≡ record { name = name.now; length = length }) }
{
    Ok(LLine {
        name: name.copy()?,
        length,
    })
}

// Whether the line is the object's.
fn object_fits(name: &Name, bytes: &[u8], line: &LLine) -> Result<Option<Verdict>, AllocError>
    ensures { IfOk result (λ found. found ≡ first_difference (shown_object name.now bytes.now ∷ []) (line.now ∷ [])) }
{
    let count = bytes.len() as u64;
    if *name == line.name && count == line.length {
        return Ok(None);
    }
    Ok(Some(Verdict::BadObject {
        expected: Some(object_line(name, count)?),
        got: Some(object_line(&line.name, line.length)?),
    }))
}

// The fault of a line where the map has no more objects.
fn superfluous_line(line: &LLine) -> Result<Verdict, AllocError>
    ensures { IfOk result (λ fault. fault ≡ BadObject None (Some line.now)) }
{
    Ok(Verdict::BadObject {
        expected: None,
        got: Some(object_line(&line.name, line.length)?),
    })
}

// The fault of an object that has no line.
fn unlisted_object(name: &Name, bytes: &[u8]) -> Result<Verdict, AllocError>
    ensures { IfOk result (λ fault. fault ≡ BadObject (Some (shown_object name.now bytes.now)) None) }
{
    Ok(Verdict::BadObject {
        expected: Some(object_line(name, bytes.len() as u64)?),
        got: None,
    })
}

/// The fault of the first place at which the lines aren't those of the map's objects.
pub fn find_wrong_object(
    objects: &ObjectMap,
    lines: &[LLine],
) -> Result<Option<Verdict>, AllocError>
    ensures { IfOk result (λ found. found ≡ first_difference (shown_objects objects.now.objects) lines.now) }
{
    for (place, line) in lines.iter().enumerate() {
        let Some((name, bytes)) = objects.at(place) else {
            return Ok(Some(superfluous_line(line)?));
        };
        if let Some(fault) = object_fits(name, bytes, line)? {
            return Ok(Some(fault));
        }
    }
    match objects.at(lines.len()) {
        Some((name, bytes)) => Ok(Some(unlisted_object(name, bytes)?)),
        None => Ok(None),
    }
}
