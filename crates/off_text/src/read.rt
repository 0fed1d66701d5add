//! The mesh that a text tells.
ghost use Rattle.std.specs.Prelude.{◌≡◌, ◌+◌, ◌-◌, ◌≤◌, ◌<◌, length, nat_lt, Ok, Some, None, IfOk, if◌then◌else◌};
ghost use Rattle.map_defs.specs.Off.{three, counts, counts_behind, header, on_line, line_read, point, face, many, ended, mesh_left, mesh_of, HasFaces, is_side_count, Short, BadIndex};
ghost use Rattle.map_defs.specs.Off as off;
ghost use Rattle.map_defs.specs.TextWords.{value_of};
ghost use Rattle.off_text.specs.Meanings.{meaning, mesh_view, Gives, Finds};
ghost use Rattle.text_words.specs.Taking.{words_in};
ghost use Rattle.off_text.specs.Reading.{corner_of, pushed};
ghost use Rattle.off_text.specs.Views.{row_view, cursor_view, counts_view, words_view};

use crate::cursor::{Cursor, Row};
use crate::number::{read_below, read_coordinate, read_count};
use crate::rows::{check_text, next, next_row};
use crate::{Mesh, OffFault, OffWhat};
use flat_lists::Lists;
use map_kind::Value;
use std::alloc::Global;
use text_words::take_word;

/// How many bytes an OFF text has at most.
pub const TEXT_MAX: u64 = 16_777_216;

/// How many corners a face has at most.
pub const CORNERS_MAX: u32 = 65_536;

/// How many points and faces follow.
#[derive(Clone, Copy)]
pub(crate) struct Counts {
    points: u32,
    faces: u32,
}

/// The mesh that an OFF text tells, or its first fault, in the order of the text. It takes memory for what it reads, and not
/// for what the header promises; `NoMemory` may come any time.
///
/// Lines end with a line feed, a number sign begins a comment, and lines without a word are skipped. The first line has the
/// word `OFF` and the numbers of points, faces and edges, or `OFF` alone, and the next line has these numbers. Then come the
/// points, of three coordinates each, and then the faces, each with the number of its corners, its corners, and colours,
/// which are not read.
pub fn read_off(alloc: Global, bytes: &[u8]) -> Result<Mesh, OffFault>
    requires { length bytes.now ≤ TEXT_MAX }
    // A mesh is the one that the text tells, and a fault is the first one of the text.
    ensures exact { Gives mesh_view result (mesh_of bytes.now) }
    // Faces have 3 to 65,536 corners, which are places of points.
    ensures faces { IfOk result (λ mesh. HasFaces (mesh_view mesh)) }
{
    let start = Cursor {
        line: 0,
        rest: bytes,
    };
    read_mesh(alloc, start)
}

#[tactic(auto, unfolding(map_defs::specs::Off::mesh_left))]
fn read_mesh(alloc: Global, cursor: Cursor) -> Result<Mesh, OffFault>
    ensures { Gives mesh_view result (mesh_left (cursor_view cursor.entry)) }
{
    let (counts, cursor) = read_header(cursor)?;
    let (points, cursor) = read_points(alloc, counts.points, cursor)?;
    let (faces, cursor) = read_faces(alloc, counts, cursor)?;
    end_of(Mesh { points, faces }, cursor)
}

/// The mesh, if no row follows.
fn end_of(mesh: Mesh, cursor: Cursor) -> Result<Mesh, OffFault>
    ensures { Gives mesh_view result (ended (mesh_view mesh) (cursor_view cursor.entry).rows) }
{
    match next_row(cursor) {
        Ok((row, _)) => {
            check_text(row)?;
            Err(OffFault::Bad {
                line: row.line,
                what: OffWhat::Extra,
            })
        }
        Err(_) => Ok(mesh),
    }
}

#[tactic(auto, unfolding(map_defs::specs::Off::header))]
fn read_header(cursor: Cursor) -> Result<(Counts, Cursor), OffFault>
    ensures { Gives (λ x. (counts_view x.0, cursor_view x.1)) result (header (cursor_view cursor.entry)) }
{
    let (row, left) = next(cursor, OffWhat::NoHeader)?;
    if row.first != b"OFF".as_slice() {
        return Err(OffFault::Bad {
            line: row.line,
            what: OffWhat::NoHeader,
        });
    }
    read_counts_behind(row, left)
}

/// The counts behind the word `OFF`, or else those of the next row.
#[tactic(auto, unfolding(map_defs::specs::Off::line_read))]
fn read_counts_behind<'a>(
    header: Row<'a>,
    left: Cursor<'a>,
) -> Result<(Counts, Cursor<'a>), OffFault>
    ensures { Gives (λ x. (counts_view x.0, cursor_view x.1)) result
        (counts_behind header.entry.line (row_view header.entry).others (cursor_view left.entry)) }
{
    match take_word(header.others) {
        Some((first, others)) => {
            let row = Row {
                line: header.line,
                first,
                others,
            };
            Ok((counts_on_line(row)?, left))
        }
        None => {
            let (row, left) = next(left, OffWhat::Short)?;
            Ok((counts_on_line(row)?, left))
        }
    }
}

fn counts_on_line(row: Row) -> Result<Counts, OffFault>
    ensures { Gives counts_view result (on_line row.entry.line (counts (row_view row.entry).first (row_view row.entry).others)) }
{
    match read_counts(row) {
        Ok(counts) => Ok(counts),
        Err(what) => Err(OffFault::Bad {
            line: row.line,
            what,
        }),
    }
}

/// The counts that the words of a row tell.
fn read_counts(row: Row) -> Result<Counts, OffWhat>
    ensures { Finds counts_view result (counts (row_view row.entry).first (row_view row.entry).others) }
{
    let (points, faces, edges) = three_words(row).map_err(|_| OffWhat::BadCounts)?;
    let points = read_count(points).ok_or(OffWhat::BadCounts)?;
    let faces = read_count(faces).ok_or(OffWhat::BadCounts)?;
    let _edges = read_count(edges).ok_or(OffWhat::BadCounts)?;
    Ok(Counts { points, faces })
}

/// The words of a row, if they are three.
fn three_words(row: Row) -> Result<(&[u8], &[u8], &[u8]), OffWhat>
    ensures { Finds words_view result (three (row_view row.entry).first (row_view row.entry).others) }
{
    let (second, rest) = take_word(row.others).ok_or(OffWhat::Short)?;
    let (third, rest) = take_word(rest).ok_or(OffWhat::Short)?;
    match take_word(rest) {
        Some(_) => Err(OffWhat::Extra),
        None => Ok((row.first, second, third)),
    }
}

fn read_points<'a>(
    alloc: Global,
    count: u32,
    cursor: Cursor<'a>,
) -> Result<(Vec<Value>, Cursor<'a>), OffFault>
    ensures { Gives (λ x. (x.0.items, cursor_view x.1)) result (many (line_read point) count (cursor_view cursor.entry)) }
{
    let mut points = Vec::new(alloc);
    let mut left = cursor;
    for _ in 0..count {
        left = push_point(&mut points, left)?;
    }
    Ok((points, left))
}

/// Reads the point of the next row, appends it, and answers what is left.
#[tactic(auto, unfolding(map_defs::specs::Off::line_read))]
fn push_point<'a>(points: &mut Vec<Value>, cursor: Cursor<'a>) -> Result<Cursor<'a>, OffFault>
    ensures { Gives (λ left. (points.new.items, cursor_view left)) result
        (pushed points.old.items (line_read point (cursor_view cursor.entry))) }
{
    let (row, left) = next(cursor, OffWhat::Short)?;
    points.push(point_on_line(row)?)?;
    Ok(left)
}

fn point_on_line(row: Row) -> Result<Value, OffFault>
    ensures { Gives (λ v. v) result (on_line row.entry.line (point (row_view row.entry).first (row_view row.entry).others)) }
{
    match read_point(row) {
        Ok(point) => Ok(point),
        Err(what) => Err(OffFault::Bad {
            line: row.line,
            what,
        }),
    }
}

#[tactic(auto, unfolding(map_defs::specs::Off::point))]
fn read_point(row: Row) -> Result<Value, OffWhat>
    ensures { Finds (λ v. v) result (point (row_view row.entry).first (row_view row.entry).others) }
{
    let (a, b, c) = three_words(row)?;
    let a = read_coordinate(a)?;
    let b = read_coordinate(b)?;
    let c = read_coordinate(c)?;
    Ok(Value { a, b, c })
}

fn read_faces(
    alloc: Global,
    counts: Counts,
    cursor: Cursor,
) -> Result<(Lists<u32>, Cursor), OffFault>
    ensures { Gives (λ x. (x.0, cursor_view x.1)) result
        (many (line_read (face counts.points)) counts.faces (cursor_view cursor.entry)) }
{
    let mut faces = Lists::new(alloc);
    let mut corners = Vec::new(alloc);
    let mut left = cursor;
    for _ in 0..counts.faces {
        left = push_face(&mut faces, &mut corners, counts.points, left)?;
    }
    Ok((faces, left))
}

/// Reads the face of the next row, appends it, and answers what is left. The corners are read into `corners` first.
#[tactic(auto, unfolding(map_defs::specs::Off::line_read))]
fn push_face<'a>(
    faces: &mut Lists<u32>,
    corners: &mut Vec<u32>,
    points: u32,
    cursor: Cursor<'a>,
) -> Result<Cursor<'a>, OffFault>
    ensures { Gives (λ left. (faces.new, cursor_view left)) result
        (pushed faces.old (line_read (face points) (cursor_view cursor.entry))) }
{
    let (row, left) = next(cursor, OffWhat::Short)?;
    read_face(corners, points, row)?;
    faces.push(corners)?;
    Ok(left)
}

/// Reads the corners of the face on a row in place of those that were there.
fn read_face(corners: &mut Vec<u32>, points: u32, row: Row) -> Result<(), OffFault>
    ensures { Gives (λ _. corners.new.items) result (on_line row.entry.line (face points (row_view row.entry).first (row_view row.entry).others)) }
{
    match read_side_count(row.first) {
        Some(count) => read_corners(corners, points, count, row),
        None => Err(OffFault::Bad {
            line: row.line,
            what: OffWhat::BadFace,
        }),
    }
}

/// The number of corners that a word tells; none exactly where it is no natural number from 3 to 65,536.
fn read_side_count(word: &[u8]) -> Option<u32>
    ensures { result ≡ (if is_side_count word.now then Some (value_of word.now) else None) }
{
    let count = read_below(CORNERS_MAX + 1, word)?;
    if count < 3 {
        return None;
    }
    Some(count)
}

/// Reads the first `count` numbers behind the first word of a row, each below `points`, in place of the corners that were
/// there.
fn read_corners(corners: &mut Vec<u32>, points: u32, count: u32, row: Row) -> Result<(), OffFault>
    ensures { Gives (λ _. corners.new.items) result (on_line row.entry.line (off.corners points count (row_view row.entry).others)) }
{
    corners.clear();
    let mut rest = row.others;
    for place in 0..count {
        match take_corner(points, count - place, rest) {
            Ok((corner, after)) => {
                corners.push(corner)?;
                rest = after;
            }
            Err(what) => {
                return Err(OffFault::Bad {
                    line: row.line,
                    what,
                });
            }
        }
    }
    Ok(())
}

/// The corner that the first word of a text tells, and what stands behind it, where `owed` words were to come.
fn take_corner(points: u32, owed: u32, text: &[u8]) -> Result<(u32, &[u8]), OffWhat>
    requires { 0 < owed }
    ensures { Finds (λ x. (x.0, words_in x.1.now)) result (corner_of points owed (words_in text.now)) }
{
    let (word, rest) = take_word(text).ok_or(OffWhat::Short)?;
    match read_below(points, word) {
        Some(corner) => Ok((corner, rest)),
        None => Err(corner_fault(owed - 1, rest)),
    }
}

/// What is wrong with a line on which a corner is no place of a point, and `owed` words were to follow.
fn corner_fault(owed: u32, text: &[u8]) -> OffWhat
    ensures { meaning result ≡ (if nat_lt (length (words_in text.now)) owed then Short else BadIndex) }
{
    let mut rest = text;
    for _ in 0..owed {
        match take_word(rest) {
            Some((_, after)) => rest = after,
            None => return OffWhat::Short,
        }
    }
    OffWhat::BadIndex
}
