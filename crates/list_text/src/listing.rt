//! What a listing tells, as plain data.
use crate::name::MarkName;
use attr_rules::TableRule;
use map_kind::{Dart, Place};
use std::marker::Model;

/// The row of a live dart. Place i of `links` has the number of the dart to which link i leads, or 0 if link i is free.
#[derive(Debug, Drop)]
pub struct ListRow {
    pub dart: Dart,
    pub links: Vec<u32>,
}

impl Model for ListRow {
    ghost use Rattle.machine_defs.specs.Listing as listing;

    ghost Value = { listing.ListRow };

    ghost view = { λ r. record { dart = r.dart; links = r.links.items } };
}

/// The rule of a dimension: how values of cells of this dimension merge and split. It may be one that no hook knows.
#[derive(Clone, Copy, Debug, PartialEq, Eq)]
pub struct ListRule {
    pub dim: u32,
    pub rule: TableRule,
}

impl Model for ListRule {
    ghost use Rattle.machine_defs.specs.Listing as listing;

    ghost Value = { listing.ListRule };

    ghost view = { λ r. record { dim = r.dim; rule = r.rule } };

    ghost inverse = { λ r. record { dim = r.dim; rule = r.rule } };
}

/// A cell that has a value: its dimension, its least dart and its value.
#[derive(Clone, Copy, Debug, PartialEq, Eq, Hash)]
pub struct ListValue {
    pub dim: u32,
    pub place: Place,
}

impl Model for ListValue {
    ghost use Rattle.machine_defs.specs.Listing as listing;

    ghost Value = { listing.ListValue };

    ghost view = { λ v. record { dim = v.dim; dart = v.place.dart; value = v.place.value } };

    ghost inverse = { λ v. record { dim = v.dim; place = record { dart = v.dart; value = v.value } } };
}

/// What a listing tells of a map: its darts, links, rules and values, and the names of its marks. `read_listing` reads a
/// listing from a text, and `put_listing` writes any listing, be it that of a map or not: any numbers may stand in it, in
/// any order. Only its letter is always that of a kind.
#[derive(Debug, Drop)]
pub struct Listing {
    /// The letter of the map's kind: `g` for a generalized, `c` for a combinatorial map.
    pub letter: u8,
    /// The map's dimension.
    pub dim: u32,
    /// How many darts were ever made, those that have ended among them.
    pub made: u32,
    /// The rows of the live darts; a map lists them by ascending dart.
    pub rows: Vec<ListRow>,
    /// The rules of the dimensions that have one; a map lists them by ascending dimension.
    pub rules: Vec<ListRule>,
    /// The cells that have a value; a map lists them by ascending dimension and then by ascending dart.
    pub values: Vec<ListValue>,
    /// The names of the marks; a map lists the oldest first.
    pub marks: Vec<MarkName>,
}

impl Model for Listing {
    ghost use Rattle.machine_defs.specs.Listing as listing;

    ghost Value = { listing.Listing };

    ghost use Rattle.list_text.specs.Letters.{IsLetter, kind_named};

    ghost view = { λ l. record {
      kind = kind_named l.letter;
      dim = l.dim;
      made = l.made;
      rows = l.rows.items;
      rules = l.rules.items;
      values = l.values.items;
      marks = l.marks.items;
    } };

    ghost invariant = { λ l. IsLetter l.letter };
}
