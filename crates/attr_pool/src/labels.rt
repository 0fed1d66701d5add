ghost use Rattle.std.specs.Prelude.{◌≡◌, ◌≢◌, ◌↔◌, ℕ, ◌≤◌, ◌<◌, max, min, None, OnOk, OnErr, IfSome};
ghost use Rattle.store_defs.specs.Labelings.{Labeling, id_of, HasPlaces, KeepsIds, KeepsPlaces, IsRelabelled, exchanged};

use crate::column::Column;
use crate::id::AttrId;
use map_kind::Dart;
use std::alloc::{AllocError, Global};
use std::marker::Model;

/// For each dart up to a number, and each dimension, an optional id. A dimension for whose ids no place was made keeps none; one
/// with place keeps 4 bytes a dart, and room for darts to come.
#[derive(Drop)]
pub struct Labels<const DIM: usize> {
    made: u32,
    columns: [Column; 9],
}

impl<const DIM: usize> Model for Labels<DIM> {
    ghost use Rattle.std.specs.Prelude.{ℕ, ◌≡◌, ◌≤◌, ◌<◌, length};
    ghost use Rattle.store_defs.specs.Labelings.{Labeling};
    ghost use Rattle.attr_pool.specs.Columns.{AreLong};

    ghost Value = { Labeling };

    ghost view = { λ labels. record { made = labels.made; columns = labels.columns } };

    ghost invariant = { λ labels. (DIM ≤ 8) × AreLong labels.made labels.columns };
}

impl<const DIM: usize> Labels<DIM> {
    /// The labels of no darts. They take no memory.
    pub fn new(alloc: Global) -> Self
        requires { DIM ≤ 8 }
        ensures made { result.made ≡ 0 }
        ensures ids { (i d : ℕ) → id_of result i d ≡ None }
    {
        Labels {
            made: 0,
            columns: [
                Column::new(alloc),
                Column::new(alloc),
                Column::new(alloc),
                Column::new(alloc),
                Column::new(alloc),
                Column::new(alloc),
                Column::new(alloc),
                Column::new(alloc),
                Column::new(alloc),
            ],
        }
    }

    /// Makes place for the ids of a dimension. It costs memory only where there was no place yet. A refusal leaves the
    /// labels as they were.
    pub fn open(&mut self, dim: usize) -> Result<(), AllocError>
        requires { dim ≤ DIM }
        ensures made { self.new.made ≡ self.old.made }
        ensures ids { KeepsIds self.old self.new }
        ensures places { OnOk result (HasPlaces self.new dim) }
        ensures places_stay { HasPlaces self.old dim → HasPlaces self.new dim }
        ensures others { (i : ℕ) → i ≢ dim → HasPlaces self.new i ↔ HasPlaces self.old i }
        ensures err { OnErr result (KeepsPlaces self.old self.new) }
    {
        let made = self.made;
        self.columns[dim].open(made)
    }

    /// Lengthens the labels to the darts up to `made`, if they are for fewer. The darts that come in have no ids. It
    /// costs memory only in the dimensions that have places. A refusal leaves the labels as they were.
    pub fn grow(&mut self, made: u32) -> Result<(), AllocError>
        ensures made { OnOk result (self.new.made ≡ max self.old.made made) }
        ensures ids { KeepsIds self.old self.new }
        ensures bare { (i d : ℕ) → self.old.made < d → id_of self.new i d ≡ None }
        ensures places { KeepsPlaces self.old self.new }
        ensures err { OnErr result (self.new.made ≡ self.old.made) }
    {
        if made <= self.made {
            return Ok(());
        }
        for column in &mut self.columns {
            column.grow(made)?;
        }
        self.made = made;
        Ok(())
    }

    /// Shortens the labels to the darts up to `made`, if they are for more. The darts that stay keep their ids.
    pub fn cut(&mut self, made: u32)
        ensures made { self.new.made ≡ min self.old.made made }
        ensures kept { (i d : ℕ) → d ≤ made → id_of self.new i d ≡ id_of self.old i d }
        ensures gone { (i d : ℕ) → made < d → id_of self.new i d ≡ None }
        ensures places { KeepsPlaces self.old self.new }
    {
        for column in &mut self.columns {
            column.cut(made);
        }
        self.made = self.made.min(made);
    }

    /// Exchanges the ids of two dimensions, with their places. It takes no memory, and costs the same for any map.
    pub fn swap(&mut self, one: usize, other: usize)
        requires one { one ≤ DIM }
        requires other { other ≤ DIM }
        ensures made { self.new.made ≡ self.old.made }
        ensures ids { (i d : ℕ) → id_of self.new i d ≡ id_of self.old (exchanged one other i) d }
        ensures places { (i : ℕ) → HasPlaces self.new i ↔ HasPlaces self.old (exchanged one other i) }
    {
        let columns = &mut self.columns;
        columns.swap(one, other);
    }

    /// The id of a dart in a dimension, if it has one. A dart that the labels are not for has none.
    pub fn id(&self, dim: usize, dart: Dart) -> Option<AttrId>
        ensures id { result ≡ id_of self.now dim dart }
        ensures bare { self.now.made < dart → result ≡ None }
    {
        self.columns.get(dim)?.id(dart.number())
    }

    /// Gives a dart an id in a dimension, or none, and answers the one before. It takes no memory: place was made.
    pub fn put(&mut self, dim: usize, dart: Dart, id: Option<AttrId>) -> Option<AttrId>
        requires dim { dim ≤ DIM }
        requires dart { dart ≤ self.old.made }
        requires places { HasPlaces self.old dim }
        ensures before { result ≡ id_of self.old dim dart }
        ensures after { IsRelabelled self.old self.new dim dart id }
        ensures made { self.new.made ≡ self.old.made }
        ensures places { KeepsPlaces self.old self.new }
    {
        let before = self.id(dim, dart);
        self.columns[dim].put(dart.number(), id);
        before
    }
}
