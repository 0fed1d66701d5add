//! The edits of combinatorial maps.

use crate::plans::Plans;
use link_rows::{Edit, Links};
use map_kind::{Beta, Dart, Refused};
use std::alloc::{AllocError, Global};

impl<const DIM: usize> Plans<Links<Beta, DIM>> for Beta {
    fn vertex_plan(
        alloc: Global,
        links: &Links<Beta, DIM>,
        dart: Dart,
    ) -> Result<Edit, AllocError> {
        beta_edit::vertex_plan(alloc, links, dart)
    }

    fn edge_plan(
        alloc: Global,
        links: &Links<Beta, DIM>,
        one: Dart,
        other: Dart,
    ) -> Result<Edit, Refused> {
        beta_edit::edge_plan(alloc, links, one, other)
    }

    fn face_plan(alloc: Global, links: &Links<Beta, DIM>, path: &[Dart]) -> Result<Edit, Refused> {
        beta_edit::face_plan(alloc, links, path)
    }

    fn remove_plan(
        alloc: Global,
        links: &Links<Beta, DIM>,
        dim: usize,
        dart: Dart,
    ) -> Result<Edit, Refused> {
        beta_edit::remove_plan(alloc, links, dim, dart)
    }

    fn contract_plan(
        alloc: Global,
        links: &Links<Beta, DIM>,
        dim: usize,
        dart: Dart,
    ) -> Result<Edit, Refused> {
        beta_edit::contract_plan(alloc, links, dim, dart)
    }

    fn removable(
        alloc: Global,
        links: &Links<Beta, DIM>,
        dim: usize,
        dart: Dart,
    ) -> Result<bool, AllocError> {
        beta_edit::removable(alloc, links, dim, dart)
    }

    fn contractible(
        alloc: Global,
        links: &Links<Beta, DIM>,
        dim: usize,
        dart: Dart,
    ) -> Result<bool, AllocError> {
        beta_edit::contractible(alloc, links, dim, dart)
    }

    fn close_plan(
        alloc: Global,
        links: &Links<Beta, DIM>,
        link: usize,
    ) -> Result<Edit, AllocError> {
        map_close::beta::close_plan(alloc, links, link)
    }

    fn dangle_plan(alloc: Global, links: &Links<Beta, DIM>, dart: Dart) -> Result<Edit, Refused> {
        face_center::beta::dangle_plan(alloc, links, dart)
    }

    fn center_plan(alloc: Global, links: &Links<Beta, DIM>, dart: Dart) -> Result<Edit, Refused> {
        face_center::beta::center_plan(alloc, links, dart)
    }

    /// It takes no memory.
    fn take_dual(_alloc: Global, links: &mut Links<Beta, DIM>) -> Result<(), Refused> {
        Ok(dual_map::combinatorial::take_dual(links)?)
    }
}
