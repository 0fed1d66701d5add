ghost use Rattle.std.specs.Prelude.{◌≡◌};
ghost use Rattle.mesh_build.specs.declared.fault.MeshFault.TheVariants.{NoMemory};

use std::alloc::{AllocError, AllocFailed};
use thiserror::Error;

/// Why a mesh has no map. A face is told by its number, from 0, and is the first face that has a fault.
#[derive(Clone, Copy, Debug, PartialEq, Eq, Error)]
pub enum MeshFault {
    /// The map would have this number of darts, which is more than are ever made. This is looked at before any face.
    #[error("the map would have {darts} darts")]
    Full { darts: u64 },
    /// The face names a point twice.
    #[error("face {face} names a point twice")]
    Repeated { face: u32 },
    /// The face names no point twice, but a side of it has the same two points as two earlier sides.
    #[error("a side of face {face} meets two sides")]
    ThreeSides { face: u32 },
    /// In a combinatorial map alone: the face names no point twice, but a side of it leads from the same point to the same
    /// point as the one earlier side with these two points.
    #[error("a side of face {face} leads the same way as the one that it meets")]
    Turned { face: u32 },
    /// There is no memory for the map.
    #[error("out of memory")]
    NoMemory,
}

impl From<AllocError> for MeshFault {
    ghost from_gives = { λ _ fault. fault ≡ NoMemory };

    fn from(_error: AllocError) -> MeshFault {
        MeshFault::NoMemory
    }
}

impl<T: Drop> From<AllocFailed<T>> for MeshFault {
    ghost from_gives = { λ _ fault. fault ≡ NoMemory };

    fn from(_error: AllocFailed<T>) -> MeshFault {
        MeshFault::NoMemory
    }
}
