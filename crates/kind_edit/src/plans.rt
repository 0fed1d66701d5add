ghost use Rattle.std.specs.Prelude.{◌≡◌, ◌≤◌, All, length, IfOk, OnErr};
ghost use Rattle.map_defs.specs.Kind.{beta};
ghost use Rattle.map_defs.specs.Rows.{links_of, IsLive};
ghost use Rattle.map_defs.specs.Laws.{Laws};
ghost use Rattle.cell_edit.specs.Planning.{PlansVertex, PlansEdge, PlansFace, PlansRemoval, PlansContraction, TellsRemovable, TellsContractible};
ghost use Rattle.map_close.specs.Planning.{PlansClosing};
ghost use Rattle.face_center.specs.Planning.{PlansDangling, PlansCentre};
ghost use Rattle.kind_edit.specs.Turning.{TakesDual};

use crate::store::LinkStore;
use link_rows::{Edit, Links};
use map_kind::{Alpha, Beta, Dart, Kind, Refused};
use std::alloc::{AllocError, Global};

/// A kind of map with the edits of its links: a plan looks at the links and answers the edit, or why there is none.
pub trait Plans<L: LinkStore>: Kind {
    /// The edit that inserts a vertex on the edge of a dart, which is always possible: only memory can lack.
    fn vertex_plan(alloc: Global, links: &L, dart: Dart) -> Result<Edit, AllocError>
        requires dart { IsLive (L.rows links.now) dart }
        requires laws { Laws Self.kind (links_of (L.rows links.now)) }
        ensures { IfOk result (PlansVertex Self.kind L.dim (L.rows links.now) dart) };

    /// The edit that inserts an edge into a face, from the corner of `one` to that of `other`.
    ///
    /// `OtherCell` comes exactly where the two darts do not lie on one side of one face; then `SameCorner` exactly where they
    /// lie in one corner; then `Unpaired` exactly where the darts of the corners cannot be paired, all memory aside.
    fn edge_plan(alloc: Global, links: &L, one: Dart, other: Dart) -> Result<Edit, Refused>
        requires one { IsLive (L.rows links.now) one }
        requires other { IsLive (L.rows links.now) other }
        requires laws { Laws Self.kind (links_of (L.rows links.now)) }
        ensures { PlansEdge Self.kind L.dim (L.rows links.now) one other result };

    /// The edit that inserts a face into a volume along a closed path, which is given by one dart at the start of each of its
    /// sides.
    ///
    /// `OtherCell` comes exactly where the darts do not lie on one side of one volume; then `NotClosed` exactly where some
    /// side does not end where the next begins; then `Unpaired` exactly where a dart stands twice on the path or the darts of
    /// the sides cannot be paired, all memory aside.
    fn face_plan(alloc: Global, links: &L, path: &[Dart]) -> Result<Edit, Refused>
        requires dim { 3 ≤ L.dim }
        requires some { 1 ≤ length path.now }
        requires live { All (IsLive (L.rows links.now)) path.now }
        requires laws { Laws Self.kind (links_of (L.rows links.now)) }
        ensures { PlansFace Self.kind L.dim (L.rows links.now) path.now result };

    /// The edit that removes a dart's cell of dimension `dim`. `NotRemovable` comes exactly where the cell cannot be removed,
    /// memory aside.
    fn remove_plan(alloc: Global, links: &L, dim: usize, dart: Dart) -> Result<Edit, Refused>
        requires dim { dim ≤ L.dim }
        requires dart { IsLive (L.rows links.now) dart }
        requires laws { Laws Self.kind (links_of (L.rows links.now)) }
        ensures { PlansRemoval Self.kind L.dim (L.rows links.now) dim dart result };

    /// The edit that contracts a dart's cell of dimension `dim`. `NotContractible` comes exactly where the cell cannot be
    /// contracted, memory aside.
    fn contract_plan(alloc: Global, links: &L, dim: usize, dart: Dart) -> Result<Edit, Refused>
        requires dim { dim ≤ L.dim }
        requires dart { IsLive (L.rows links.now) dart }
        requires laws { Laws Self.kind (links_of (L.rows links.now)) }
        ensures { PlansContraction Self.kind L.dim (L.rows links.now) dim dart result };

    /// Whether a dart's cell of dimension `dim` can be removed: `remove_plan` refuses exactly where not, memory aside.
    fn removable(alloc: Global, links: &L, dim: usize, dart: Dart) -> Result<bool, AllocError>
        requires dim { dim ≤ L.dim }
        requires laws { Laws Self.kind (links_of (L.rows links.now)) }
        ensures { IfOk result (TellsRemovable Self.kind (L.rows links.now) dim dart) };

    /// Whether a dart's cell of dimension `dim` can be contracted: `contract_plan` refuses exactly where not, memory aside.
    fn contractible(alloc: Global, links: &L, dim: usize, dart: Dart) -> Result<bool, AllocError>
        requires dim { dim ≤ L.dim }
        requires laws { Laws Self.kind (links_of (L.rows links.now)) }
        ensures { IfOk result (TellsContractible Self.kind (L.rows links.now) dim dart) };

    /// The edit that closes the map at a link, with a new dart on each live dart that is free there: only memory can lack. In a
    /// combinatorial map the link is 2 or more.
    fn close_plan(alloc: Global, links: &L, link: usize) -> Result<Edit, AllocError>
        requires link { link ≤ L.dim }
        requires high { Self.kind ≡ beta → 2 ≤ link }
        requires laws { Laws Self.kind (links_of (L.rows links.now)) }
        ensures { IfOk result (PlansClosing Self.kind L.dim (L.rows links.now) link) };

    /// The edit that hangs an edge at the corner of a dart. `Unpaired` comes exactly where no side leads into the corner of a
    /// combinatorial map, memory aside; in a generalized map it never comes.
    fn dangle_plan(alloc: Global, links: &L, dart: Dart) -> Result<Edit, Refused>
        requires dart { IsLive (L.rows links.now) dart }
        requires laws { Laws Self.kind (links_of (L.rows links.now)) }
        ensures { PlansDangling Self.kind L.dim (L.rows links.now) dart result };

    /// The edit that puts a vertex in the middle of the face of a dart, with an edge to each corner. `NotClosed` comes exactly
    /// where a dart of the face is free at link 0 or link 1, memory aside.
    fn center_plan(alloc: Global, links: &L, dart: Dart) -> Result<Edit, Refused>
        requires dart { IsLive (L.rows links.now) dart }
        requires laws { Laws Self.kind (links_of (L.rows links.now)) }
        ensures { PlansCentre Self.kind L.dim (L.rows links.now) dart result };

    /// Makes the map its dual, which has the same darts. `Boundary` comes exactly where the map has no dual, memory aside. A
    /// refusal leaves the map as it was.
    fn take_dual(alloc: Global, links: &mut L) -> Result<(), Refused>
        requires { Laws Self.kind (links_of (L.rows links.old)) }
        ensures turned { TakesDual Self.kind L.dim (L.rows links.old) (L.rows links.new) result }
        ensures err { OnErr result (links.new ≡ links.old) };
}

/// A kind of map whose maps of a dimension can be edited.
pub trait Edits<const DIM: usize>: Plans<Links<Self, DIM>> + Sized {}

impl<const DIM: usize> Edits<DIM> for Alpha {}

impl<const DIM: usize> Edits<DIM> for Beta {}
