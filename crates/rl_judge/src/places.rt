//! The lines and columns of byte places, and of the parts of a pattern. A cursor is a byte place in a source with its line and
//! column. A mark is a part of a pattern, with its line and column.
ghost use Rattle.std.specs.Prelude.{◌≡◌, ◌≢◌, ◌≤◌, [], List, ℕ, length, map, None, option_map, IfOk};
ghost use Rattle.rl_report.specs.Places.{IsAt, place_of};
ghost use Rattle.rl_judge.specs.RightEntries.{mark_of, marks_of};
ghost use Rattle.rl_lists.specs.declared.limits.TheConstants.{MOST_BYTES};

use crate::parts::{PartList, Parts};
use rl_lists::OutOfMemory;
use rl_report::{Cursor, Mark, MarkList, Marks, Place};
use std::alloc::Global;

/// Returns the cursor if it isn't past the byte place, otherwise the beginning of the source.
fn at_or_before(cursor: Cursor, byte: u32) -> Cursor
    ensures at { (source : List ℕ) → IsAt source cursor → IsAt source result }
    ensures before { result.byte ≤ byte }
{
    if cursor.byte() <= byte {
        cursor
    } else {
        Cursor::start()
    }
}

/// Returns the line and column of a byte place, and moves the cursor there. Places in increasing order take one pass over the
/// source in all.
#[tactic(auto, using(crate::proofs::Placing::placing))]
fn place_at(cursor: &mut Cursor, source: &[u8], byte: u32) -> Place
    requires at { IsAt source.now cursor.old }
    requires short { length source.now ≤ MOST_BYTES }
    ensures place { result ≡ place_of source.now byte }
    ensures at { IsAt source.now cursor.new }
{
    let byte = byte.min(source.len() as u32);
    *cursor = at_or_before(*cursor, byte).forward(source, byte);
    cursor.place()
}

/// Returns the line and column of a byte place, and moves the cursor there. If there is no byte place, returns `None` and
/// leaves the cursor where it is. The cursor must be in this source, which must have at most 4,194,304 bytes.
pub fn some_place_at(cursor: &mut Cursor, source: &[u8], byte: Option<u32>) -> Option<Place>
    requires at { IsAt source.now cursor.old }
    requires short { length source.now ≤ MOST_BYTES }
    ensures place { result ≡ option_map (place_of source.now) byte }
    ensures at { IsAt source.now cursor.new }
{
    match byte {
        Some(byte) => Some(place_at(cursor, source, byte)),
        None => None,
    }
}

/// Returns the line and column of the byte place of a fault, or `None` if the fault has no place. If it has one, the source
/// must have at most 4,194,304 bytes.
pub fn fault_place(source: &[u8], byte: Option<u32>) -> Option<Place>
    requires { byte ≢ None → length source.now ≤ MOST_BYTES }
    ensures { result ≡ option_map (place_of source.now) byte }
{
    match byte {
        Some(byte) => Some(place_at(&mut Cursor::start(), source, byte)),
        None => None,
    }
}

/// Returns three empty lists of marks.
pub fn no_marks(alloc: Global) -> Marks
    ensures { result ≡ record { dropped = []; merged = []; passed = [] } }
{
    Marks {
        dropped: MarkList::new(alloc),
        merged: MarkList::new(alloc),
        passed: MarkList::new(alloc),
    }
}

/// Returns the lines and columns of parts. Counting starts at the cursor.
fn mark_list(
    alloc: Global,
    source: &[u8],
    parts: PartList,
    cursor: Cursor,
) -> Result<MarkList, OutOfMemory>
    requires at { IsAt source.now cursor }
    requires short { length source.now ≤ MOST_BYTES }
    ensures { IfOk result (λ marks. marks ≡ map (mark_of source.now) parts) }
{
    let mut cursor = cursor;
    let mut marks = MarkList::new(alloc);
    for part in parts.into_vec() {
        let at = place_at(&mut cursor, source, part.byte);
        marks.push(Mark {
            at,
            text: part.text,
        })?;
    }
    Ok(marks)
}

/// Returns the parts that a suggestion mentions, each with its line and column in place of its byte place. Counting starts at
/// the cursor for each of the lists. The cursor must be in this source, which must have at most 4,194,304 bytes.
///
/// # Errors
/// [`OutOfMemory`] if memory runs out.
pub fn marks_of(
    alloc: Global,
    source: &[u8],
    parts: Parts,
    cursor: Cursor,
) -> Result<Marks, OutOfMemory>
    requires at { IsAt source.now cursor }
    requires short { length source.now ≤ MOST_BYTES }
    ensures { IfOk result (λ marks. marks ≡ marks_of source.now parts) }
{
    let dropped = mark_list(alloc, source, parts.dropped, cursor)?;
    let merged = mark_list(alloc, source, parts.merged, cursor)?;
    let passed = mark_list(alloc, source, parts.passed, cursor)?;
    Ok(Marks {
        dropped,
        merged,
        passed,
    })
}
