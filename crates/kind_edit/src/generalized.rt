//! The edits of generalized maps.

use crate::plans::Plans;
use link_rows::{Edit, Links};
use map_kind::{Alpha, Dart, Refused};
use std::alloc::{AllocError, Global};

impl<const DIM: usize> Plans<Links<Alpha, DIM>> for Alpha {
    fn vertex_plan(
        alloc: Global,
        links: &Links<Alpha, DIM>,
        dart: Dart,
    ) -> Result<Edit, AllocError> {
        alpha_edit::vertex_plan(alloc, links, dart)
    }

    fn edge_plan(
        alloc: Global,
        links: &Links<Alpha, DIM>,
        one: Dart,
        other: Dart,
    ) -> Result<Edit, Refused> {
        alpha_edit::edge_plan(alloc, links, one, other)
    }

    fn face_plan(alloc: Global, links: &Links<Alpha, DIM>, path: &[Dart]) -> Result<Edit, Refused> {
        alpha_edit::face_plan(alloc, links, path)
    }

    fn remove_plan(
        alloc: Global,
        links: &Links<Alpha, DIM>,
        dim: usize,
        dart: Dart,
    ) -> Result<Edit, Refused> {
        alpha_edit::remove_plan(alloc, links, dim, dart)
    }

    fn contract_plan(
        alloc: Global,
        links: &Links<Alpha, DIM>,
        dim: usize,
        dart: Dart,
    ) -> Result<Edit, Refused> {
        alpha_edit::contract_plan(alloc, links, dim, dart)
    }

    fn removable(
        alloc: Global,
        links: &Links<Alpha, DIM>,
        dim: usize,
        dart: Dart,
    ) -> Result<bool, AllocError> {
        alpha_edit::removable(alloc, links, dim, dart)
    }

    fn contractible(
        alloc: Global,
        links: &Links<Alpha, DIM>,
        dim: usize,
        dart: Dart,
    ) -> Result<bool, AllocError> {
        alpha_edit::contractible(alloc, links, dim, dart)
    }

    fn close_plan(
        alloc: Global,
        links: &Links<Alpha, DIM>,
        link: usize,
    ) -> Result<Edit, AllocError> {
        map_close::alpha::close_plan(alloc, links, link)
    }

    fn dangle_plan(alloc: Global, links: &Links<Alpha, DIM>, dart: Dart) -> Result<Edit, Refused> {
        face_center::alpha::dangle_plan(alloc, links, dart)
    }

    fn center_plan(alloc: Global, links: &Links<Alpha, DIM>, dart: Dart) -> Result<Edit, Refused> {
        face_center::alpha::center_plan(alloc, links, dart)
    }

    /// It takes no memory.
    fn take_dual(_alloc: Global, links: &mut Links<Alpha, DIM>) -> Result<(), Refused> {
        Ok(dual_map::generalized::take_dual(links)?)
    }
}
