//! Listings are assembled.

ghost use Rattle.std.specs.Prelude.{◌≡◌, IfOk, map};
ghost use Rattle.std.specs.List.{slice_split};
ghost use Rattle.pv_format.specs.Splits.{is_feed};
ghost use Rattle.pv_format.specs.Seen.{texts};
ghost use Rattle.pv_listing.specs.Lines.{line_text};
ghost use Rattle.pv_asm.specs.declared.draft.Place.TheVariants as place;
ghost use Rattle.pv_asm.specs.Listings.{read_lines, ended};
ghost use Rattle.pv_asm.specs.Classes.{lines_of, class_of_lines, class_of_text};
ghost use Rattle.pv_asm.specs.Stopping.{Gives};

use crate::class::class_bytes;
use crate::draft::{Draft, Place, next};
use crate::fault::AsmFault;
use crate::stop::Stop;
use pv_listing::{Line, read_line};
use pv_value::Memory;
use std::alloc::{AllocError, Global};

// What stands between the line feeds of a text.
fn cut_at_feeds(alloc: Global, text: &[u8]) -> Result<Vec<&[u8]>, AllocError>
    ensures { IfOk result (λ v. texts v.items ≡ slice_split is_feed text.now) }
{
    text.split(|b| *b == b'\n').collect(alloc)
}

// The lines of which these are the bytes before their line feeds, None where one has no reading.
fn read_all(alloc: Global, bodies: &[&[u8]]) -> Result<Vec<Option<Line>>, Memory>
    ensures { IfOk result (λ v. v.items ≡ map line_text.reads (texts bodies.now)) }
{
    let mut lines = Vec::new(alloc);
    for body in bodies {
        lines.push(read_line(alloc, body)?)?;
    }
    Ok(lines)
}

// The lines of the parts between line feeds, None where one has no reading.
fn lines_of(alloc: Global, parts: &[&[u8]]) -> Result<Vec<Option<Line>>, Memory>
    ensures { IfOk result (λ v. v.items ≡ lines_of (texts parts.now)) }
{
    let Some((last, front)) = parts.split_last() else {
        return Ok(Vec::new(alloc));
    };
    let mut lines = read_all(alloc, front)?;
    if last.is_empty() {
        return Ok(lines);
    }
    lines.push(None)?;
    Ok(lines)
}

// The class after all lines, the first of which was a line of this number less one.
fn ended(place: Place, number: usize) -> Result<Draft, AsmFault>
    ensures { Gives (λ d. d) result (ended number place) }
{
    match place {
        Place::Between(draft) => Ok(draft),
        _ => Err(AsmFault::Line(number)),
    }
}

// The class of lines.
fn read_lines(alloc: Global, lines: &[Option<Line>]) -> Result<Draft, AsmFault>
    ensures { Gives (λ d. d) result (read_lines 1 place.Start lines.now) }
{
    let mut place = Place::Start;
    for i in 0..lines.len() {
        let Some(line) = &lines[i] else {
            return Err(AsmFault::Line(i + 1));
        };
        match next(alloc, place, line, &lines[i + 1..]) {
            Ok(later) => place = later,
            Err(Stop::NoReading) => return Err(AsmFault::Line(i + 1)),
            Err(Stop::Memory) => return Err(AsmFault::Memory),
        }
    }
    ended(place, lines.len() + 1)
}

/// The bytes of the class of lines, None where one has no reading; or the number of the first line that has none where it stands.
pub fn assemble_lines(alloc: Global, lines: &[Option<Line>]) -> Result<Vec<u8>, AsmFault>
    ensures { Gives (λ v. v.items) result (class_of_lines lines.now) }
{
    let draft = read_lines(alloc, lines)?;
    Ok(class_bytes(alloc, &draft)?)
}

/// The bytes of the class of a listing, or the number of its first line that has no reading.
pub fn assemble(alloc: Global, text: &[u8]) -> Result<Vec<u8>, AsmFault>
    ensures { Gives (λ v. v.items) result (class_of_text text.now) }
{
    let parts = cut_at_feeds(alloc, text)?;
    let lines = lines_of(alloc, &parts)?;
    assemble_lines(alloc, &lines)
}
