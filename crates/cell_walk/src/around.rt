//! Walks around the cells of one dimension: how they go is told once for many darts.
ghost use Rattle.std.specs.Prelude.{◌≡◌, ℕ, ◌≤◌, ◌↔◌, Contains, IsOk, IfOk};
ghost use Rattle.std.specs.List.Sorted.{IsStrictlyIncreasing};
ghost use Rattle.map_defs.specs.Rows.{links_of};
ghost use Rattle.map_defs.specs.Cells.{InCell};

use crate::orbits::walked;
use crate::rounds::round;
use crate::surface::surface_ways;
use crate::ways::{Course, course_along};
use link_rows::Links;
use map_kind::{Dart, Kind, LinkWord};
use std::alloc::{AllocError, Global};
use std::marker::{Model, PhantomData};

/// Answers the cells of one dimension of many darts, one by one: how walks go around such cells is found out once. It is
/// seen as that dimension.
#[derive(Drop)]
pub struct CellWalk<K: Kind, const DIM: usize> {
    dim: usize,
    course: Course,

    /// The words of the cells; none are needed where the course is round.
    words: Vec<LinkWord>,
    kind: PhantomData<K>,
}

impl<K: Kind, const DIM: usize> Model for CellWalk<K, DIM> {
    ghost use Rattle.std.specs.Prelude.{ℕ};
    ghost use Rattle.cell_walk.specs.CellCourses.{IsCellCourse};

    ghost Value = { ℕ };

    ghost view = { λ walk. walk.dim };

    ghost invariant = { λ walk. IsCellCourse K.kind DIM walk.dim walk.words.items walk.course };
}

impl<K: Kind, const DIM: usize> CellWalk<K, DIM> {
    /// A walk around the cells of dimension `dim` of these links, or of others of that kind and dimension. For the cells of
    /// surfaces it takes no memory.
    pub fn new(alloc: Global, links: &Links<K, DIM>, dim: usize) -> Result<Self, AllocError>
        requires { dim ≤ DIM }
        ensures dim { IfOk result (λ walk. walk ≡ dim) }
        ensures surface { DIM ≡ 2 → IsOk result }
    {
        if links.dimension() == 2 {
            return Ok(CellWalk {
                dim,
                course: Course::Round(surface_ways::<K>(dim)),
                words: Vec::new(alloc),
                kind: PhantomData,
            });
        }
        let words = K::words(alloc, links.dimension(), dim)?;
        Ok(CellWalk {
            dim,
            course: course_along::<K>(&words),
            words,
            kind: PhantomData,
        })
    }

    /// The darts of a dart's cell, ascending. It costs the size of the cell times a logarithm.
    pub fn cell(
        &self,
        alloc: Global,
        links: &Links<K, DIM>,
        dart: Dart,
    ) -> Result<Vec<Dart>, AllocError>
        ensures members { IfOk result (λ cell. (y : ℕ) → Contains cell.items y ↔ InCell K.kind (links_of links.now.rows) self.now dart y) }
        ensures ascending { IfOk result (λ cell. IsStrictlyIncreasing cell.items) }
    {
        links.see_sound();
        match &self.course {
            Course::Round(ways) => round(alloc, links, ways, dart),
            course => walked(alloc, links, &self.words, course, dart),
        }
    }
}
