//! A draw: a new version, with its stamp, of each stripe that a put or a write touches.
ghost use Rattle.std.specs.Prelude.{◌≡◌, ◌+◌, ◌<◌, ◌≤◌, ◌/◌, ◌^◌, ◌++◌, length, replicate, IfOk, OnOk, OnErr, vec_capacity};
ghost use Rattle.std.specs.List.{range_with_len};
ghost use Rattle.store_core.specs.Note.{Kind as CoreKind};
ghost use Rattle.store_core.specs.Act.{DirectoryStep};
ghost use Rattle.store_core.specs.Agreement.{AgreesWithPass};
ghost use Rattle.store_core.specs.Tokens.{MayGoOn, after_pass_step};
ghost use Rattle.dir_parts.specs.Passes.{kind_in};
ghost use Rattle.stripe_stamps.specs.Sealed.{stamps_touched, CanSeal};
ghost use Rattle.stripe_stamps.specs.Stamped.{AreOf, AreBases};
ghost use Rattle.stripe_dir.specs.Answers.{told_by_draw};
ghost use Rattle.stripe_stamps.specs.DrawnStamps.{asked, with_more};
ghost use Rattle.stripe_stamps.specs.Stripes.{first_touched, count_touched, versions_touched};
ghost use Rattle.stripe_dir.specs.Steps.{IsDraw};
ghost use Rattle.stripe_dir.specs.AnswerTokens.{token_drawn, token_or_pass};
ghost use Rattle.stripe_dir.specs.AnswerStamps.{stamps_given, AreDrawn};

use crate::directory::Directory;
use crate::directory_answers::Drawn;
use crate::tokens::Pass;
use dir_parts::{CallKind, OpenPass};
use std::alloc::{AllocError, Global};
use store_map::Point;
use stripe_stamps::{Drawing, Stamps, met};
use version_seal::{Book, Request, Stamp};
use version_table::Versions;

// What a draw gives: the numbers for the pass, their stamps, and room for the object's versions.
#[derive(Drop)]
struct Fresh {
    drawn: Vec<u64>,
    stamps: Vec<Stamp>,
    memory: Vec<u64>,
}

// So many numbers from a first one on.
fn numbers(alloc: Global, first: u64, count: u32) -> Result<Vec<u64>, AllocError>
    requires { first + count ≤ 2 ^ 64 }
    ensures { IfOk result (λ numbers. numbers.items ≡ range_with_len first count) }
{
    let mut numbers = Vec::with_capacity(alloc, count as usize)?;
    for i in 0..count {
        numbers.push_reserved(first + u64::from(i));
    }
    Ok(numbers)
}

// Room for an object's versions up to the last that a write draws, and for as many more, so that they seldom
// move where an object grows by many writes; none for other calls.
fn room_for(alloc: Global, kind: CallKind, first: u32, count: u32) -> Result<Vec<u64>, AllocError>
    ensures { IfOk result (λ memory. kind_in kind ≡ CoreKind.Write → first + count ≤ vec_capacity memory) }
{
    match kind {
        CallKind::Write => {
            let needed = first as usize + count as usize;
            Vec::with_capacity(alloc, 2 * needed)
        }
        _ => Ok(Vec::new(alloc)),
    }
}

// A new version for each stripe that the pass's call touches, with its stamp. Takes all memory before it
// seals; where that is wanting nothing is drawn.
fn draw_fresh(
    versions: &mut Versions,
    stamps: &mut Stamps,
    pass: &OpenPass,
    stripe_len: u32,
    book: &Book,
    request: Option<&Request>,
) -> Result<Fresh, AllocError>
    requires stripe { 0 < stripe_len }
    requires call { CanSeal book.now pass.now.pass (asked request) }
    requires book { book.now ≡ stamps.old.book }
    requires stamps { AreOf book.now stamps.old.listed }
    requires bases { AreBases stamps.old.listed pass.now.pass.pinned }
    ensures listed { OnOk result (versions.new.listed ≡ versions.old.listed ++ versions_touched stripe_len pass.now.pass) }
    ensures pins { OnOk result (versions.new.pins ≡ versions.old.pins ++ replicate (count_touched stripe_len pass.now.pass.note) 0) }
    ensures drawn { IfOk result (λ fresh. fresh.drawn.items ≡ range_with_len (length versions.old.listed) (count_touched stripe_len pass.now.pass.note)) }
    ensures told { IfOk result (λ fresh. fresh.stamps.items ≡ stamps_touched book.now stamps.old.listed stripe_len pass.now.pass (asked request.entry)) }
    ensures stamps { OnOk result (stamps.new ≡ with_more stamps.old (stamps_touched book.now stamps.old.listed stripe_len pass.now.pass (asked request.entry))) }
    ensures memory { IfOk result (λ fresh. pass.now.pass.note.kind ≡ CoreKind.Write → first_touched stripe_len pass.now.pass.note + count_touched stripe_len pass.now.pass.note ≤ vec_capacity fresh.memory) }
    ensures err_listed { OnErr result (versions.new.listed ≡ versions.old.listed) }
    ensures err_pins { OnErr result (versions.new.pins ≡ versions.old.pins) }
    ensures err_stamps { OnErr result (stamps.new ≡ stamps.old) }
{
    let alloc = *pass.drawn.allocator();
    let note = &pass.note;
    let first = note.offset / stripe_len;
    let count = met(stripe_len, u64::from(note.offset), u64::from(note.length))?;
    if first > u32::MAX - count {
        return Err(AllocError);
    }
    let from = versions.len() as u64;
    if from > u64::MAX - u64::from(count) {
        return Err(AllocError);
    }
    let drawn = numbers(alloc, from, count)?;
    let memory = room_for(alloc, note.kind, first, count)?;
    versions.reserve(count)?;
    let drawing = Drawing {
        book,
        pass,
        first,
        count,
        request,
    };
    let fresh = stamps.draw(&drawing)?;
    versions.draw(pass.actor, pass.number, &pass.pinned, first, count);
    Ok(Fresh {
        drawn,
        stamps: fresh,
        memory,
    })
}

impl Directory {
    /// A new version for each stripe that the put or the write touches, rising. Takes all memory that
    /// the later steps on the pass need, and seals the versions then; where it is wanting none is
    /// sealed. In a book without a script it wants the call's request. No number can be taken already,
    /// since only the book's one sealer seals in it, which the directory keeps.
    pub fn draw(
        &mut self,
        pass: Pass,
        book: &Book,
        request: Option<&Request>,
    ) -> Result<Drawn, Pass>
        requires agrees { AgreesWithPass self.old.core pass }
        requires may { MayGoOn self.old.core pass DirectoryStep.Draw }
        requires book { book.now ≡ self.old.book }
        requires call { CanSeal self.old.book pass.pass (asked request) }
        ensures step { IsDraw pass self.old self.new result }
        ensures token { token_or_pass token_drawn result ≡ after_pass_step pass (told_by_draw result) }
        ensures book { self.new.book ≡ self.old.book }
        ensures stamps { self.new.stamps ≡ self.old.stamps ++ stamps_given result }
        ensures drawn { AreDrawn self.old pass.pass (asked request.entry) result }
    {
        if let Some(point) = self.reap_of(pass.actor) {
            let seat = self.end_reaped(pass, point);
            return Ok(Drawn::Reaped {
                seat,
                at: Point(point),
            });
        }
        let stripe_len = self.geometry.stripe_len();
        let Some(open) = self.passes.find(pass.actor) else {
            unreachable!()
        };
        let Ok(fresh) = draw_fresh(
            &mut self.versions,
            &mut self.stamps,
            open,
            stripe_len,
            book,
            request,
        ) else {
            return Err(pass);
        };
        let Fresh {
            drawn,
            stamps,
            memory,
        } = fresh;
        let Pass {
            actor,
            told,
            entry: _,
        } = pass;
        let entry = self.passes.draw(actor, drawn, memory);
        Ok(Drawn::Versions {
            pass: Pass { actor, told, entry },
            stamps,
        })
    }
}
