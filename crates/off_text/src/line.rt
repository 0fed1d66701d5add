//! The lines of a map's OFF text.
ghost use Rattle.machine_defs.specs.OffText.{off_counts_text, off_point_text, off_face_text};
ghost use Rattle.text_lines.specs.Writing.{Appends};
ghost use Rattle.off_text.specs.OffLines.{line_text, line-ends};

use map_kind::Value;
use std::alloc::AllocError;
use text_lines::{TextLine, append_number, append_spaced};

/// A line of a map's OFF text.
#[derive(Clone, Copy, Debug)]
pub enum OffLine<'a> {
    /// The first line: `OFF`.
    Header,
    /// How many points, faces and edges there are.
    Counts {
        points: usize,
        faces: usize,
        edges: u64,
    },
    /// A point: its three numbers.
    Point(&'a Value),
    /// A face: how many corners it has, and the places of their points.
    Face(&'a Vec<u32>),
}

impl<'a> TextLine for OffLine<'a> {
    ghost line = { line_text };

    fn append_to(&self, text: &mut Vec<u8>) -> Result<(), AllocError> {
        match self {
            OffLine::Header => text.extend_from_slice(b"OFF\n"),
            OffLine::Counts {
                points,
                faces,
                edges,
            } => append_counts(text, *points, *faces, *edges),
            OffLine::Point(point) => append_point(text, **point),
            OffLine::Face(corners) => append_face(text, corners.as_slice()),
        }
    }

    ghost ends = { line-ends };
}

fn append_counts(
    text: &mut Vec<u8>,
    points: usize,
    faces: usize,
    edges: u64,
) -> Result<(), AllocError>
    ensures { Appends text.old.items text.new.items (off_counts_text points faces edges) result }
{
    append_number(text, points)?;
    append_spaced(text, faces)?;
    append_spaced(text, edges)?;
    text.push(b'\n')?;
    Ok(())
}

fn append_point(text: &mut Vec<u8>, point: Value) -> Result<(), AllocError>
    ensures { Appends text.old.items text.new.items (off_point_text point) result }
{
    append_number(text, point.a)?;
    append_spaced(text, point.b)?;
    append_spaced(text, point.c)?;
    text.push(b'\n')?;
    Ok(())
}

fn append_face(text: &mut Vec<u8>, corners: &[u32]) -> Result<(), AllocError>
    ensures { Appends text.old.items text.new.items (off_face_text corners.now) result }
{
    append_number(text, corners.len())?;
    for corner in corners {
        append_spaced(text, *corner)?;
    }
    text.push(b'\n')?;
    Ok(())
}
