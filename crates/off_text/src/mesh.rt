use flat_lists::Lists;
use map_kind::Value;

/// A mesh: points, and faces along them.
#[derive(Drop)]
pub struct Mesh {
    /// The points, each by its three coordinates.
    pub points: Vec<Value>,
    /// The faces, each a list of its corners in the order in which it goes round: places of `points`, from 0.
    pub faces: Lists<u32>,
}
