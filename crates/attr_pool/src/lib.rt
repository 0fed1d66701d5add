//! Values under ids, and the ids of darts: the darts of a cell share an id, and so a value.
#![tactic(auto)]

mod column;
mod id;
mod labels;
mod pool;

pub use id::AttrId;
pub use labels::Labels;
pub use pool::Pool;
