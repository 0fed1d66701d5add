//! The map with values, and what is read of it.
ghost use Rattle.std.specs.Prelude.{◌≡◌, ◌+◌, ◌≤◌, List, IfOk, IfErr, OnOk};
ghost use Rattle.map_defs.specs.Laws.{Laws};
ghost use Rattle.map_defs.specs.Rows.{IsSound, links_of, live_count};
ghost use Rattle.machine_defs.specs.State.{empty_content, rule_at, value_at};
ghost use Rattle.machine_defs.specs.Listing.{ListValue as ValuedCell, ListsValues, ListsValuesIn, listing_with};
ghost use Rattle.machine_defs.specs.Kept.{IsLawfulContent};
ghost use Rattle.map_defs.specs.OffOfMap.{AreOffRows, HasOffText, LacksOffText};
ghost use Rattle.off_text.specs.MapViews.{off_view, IfLine};

use crate::ids::stored_value;
use crate::list::{list_dimension, list_rules, list_values};
use crate::off::points;
use crate::rules::rule_of;
use attr_pool::{Labels, Pool};
use attr_rules::TableRule;
use link_rows::Links;
use list_text::{ListValue, Listing, MarkName, list_rows};
use map_kind::{Dart, Kind, Refused, Value};
use off_text::{OffRows, off_of};
use std::alloc::{AllocError, Global};
use std::marker::Model;
use transport::RuleRow;

/// The links of a map of a kind and a dimension from 2 to 8, with the values of its cells and the rules by which they are
/// carried, seen as a content of the plain map machine, beside the number of darts that can live without further memory. Its
/// type keeps that the content is a lawful one: the links obey the laws of a map, and the darts of a cell have one value or
/// none.
#[derive(Drop)]
pub struct ValuedMap<K: Kind, const DIM: usize> {
    pub(crate) links: Links<K, DIM>,
    // The darts of a cell with a value share an id; no other dart has one.
    pub(crate) labels: Labels<DIM>,
    pub(crate) pool: Pool,
    // Without places until some dimension gets a rule.
    pub(crate) rules: RuleRow,
}

impl<K: Kind, const DIM: usize> Model for ValuedMap<K, DIM> {
    ghost use Rattle.std.specs.Prelude.{◌+◌};
    ghost use Rattle.map_defs.specs.Rows.{live_count};
    ghost use Rattle.valued_map.specs.Holding.{Holding};
    ghost use Rattle.label_laws.specs.Contents.{content_of};
    ghost use Rattle.label_laws.specs.Maps.{IsStoredMap};

    ghost Value = { Holding };

    ghost view = { λ map. record {
      content = content_of K.kind DIM map.links.rows map.labels map.pool map.rules;
      places = live_count map.links.rows + map.links.room;
    } };

    ghost invariant = { λ map. IsStoredMap K.kind DIM map.links.rows map.labels map.pool map.rules };
}

impl<K: Kind, const DIM: usize> ValuedMap<K, DIM> {
    /// The map without darts, values and rules. It takes no memory.
    pub fn new(alloc: Global) -> Self
        requires low { 2 ≤ DIM }
        requires high { DIM ≤ 8 }
        ensures empty { result.content ≡ empty_content K.kind DIM }
        ensures lawful { IsLawfulContent result.content }
    {
        ValuedMap {
            links: Links::new(alloc),
            labels: Labels::new(alloc),
            pool: Pool::new(alloc),
            rules: RuleRow {
                rules: Vec::new(alloc),
            },
        }
    }

    /// The links, to be read. Here can be read what the type keeps.
    pub fn links(&self) -> &Links<K, DIM>
        ensures rows { result.now.rows ≡ self.now.content.rows }
        ensures places { self.now.places ≡ live_count result.now.rows + result.now.room }
        ensures kind { self.now.content.kind ≡ K.kind }
        ensures dim { self.now.content.dim ≡ DIM }
        ensures sound { IsSound K.kind DIM self.now.content.rows }
        ensures laws { Laws K.kind (links_of result.now.rows) }
        ensures lawful { IsLawfulContent self.now.content }
    {
        &self.links
    }

    /// The value of the cell of a dart in a dimension, if it has one.
    pub fn value(&self, dim: usize, dart: Dart) -> Option<Value>
        ensures { result ≡ value_at self.now.content dim dart }
    {
        stored_value(&self.labels, &self.pool, dim, dart)
    }

    /// The rule of a dimension, if it has one.
    pub fn rule(&self, dim: usize) -> Option<TableRule>
        ensures { result ≡ rule_at self.now.content dim }
    {
        rule_of(&self.rules, dim)
    }

    /// The listing of the map: its live darts, ascending, with their links, its rules, and its cells with a value, each by
    /// its least dart, ascending by dimension, then by dart; and the names of marks that are handed in. It costs the size of the
    /// map times a logarithm.
    pub fn listing(&self, alloc: Global, marks: Vec<MarkName>) -> Result<Listing, AllocError>
        ensures { IfOk result (λ listing. (values : List ValuedCell) × ListsValues self.now.content values
            × (listing ≡ listing_with self.now.content values marks.items)) }
    {
        Ok(Listing {
            letter: K::letter(),
            dim: self.links.dimension() as u32,
            made: self.links.made(),
            rows: list_rows(alloc, &self.links)?,
            rules: list_rules(alloc, &self.rules)?,
            values: list_values(alloc, &self.links, &self.labels, &self.pool, &self.rules)?,
            marks,
        })
    }

    /// The cells of a dimension with a value, each by its least dart, ascending. It costs the size of the map times a
    /// logarithm, or nothing where the dimension has no rule.
    pub fn values_in(&self, alloc: Global, dim: usize) -> Result<Vec<ListValue>, AllocError>
        requires { dim ≤ DIM }
        ensures { IfOk result (λ values. ListsValuesIn self.now.content dim values.items) }
    {
        let mut values = Vec::new(alloc);
        list_dimension(
            alloc,
            &self.links,
            &self.labels,
            &self.pool,
            &self.rules,
            dim,
            &mut values,
        )?;
        Ok(values)
    }

    /// What OFF text tells of the map: the value of each 0-cell as a point, and each 2-cell as a face, cells by ascending least
    /// dart; and how many 1-cells there are. A face begins at the least dart of its cell.
    ///
    /// It is refused as `NotClosed` where the way round a 2-cell meets a free link, else as `NoPoint` where a 0-cell has no
    /// value, and else as `ThinFace` where the way round a 2-cell has fewer than three darts; `NoMemory` may come any time. It
    /// costs the size of the map times a logarithm.
    pub fn off_rows(&self, alloc: Global) -> Result<OffRows, Refused>
        ensures rows { IfOk result (λ off. AreOffRows self.now.content.kind self.now.content.rows (value_at self.now.content 0) (off_view off)) }
        ensures answered { OnOk result (HasOffText self.now.content.kind self.now.content.rows (value_at self.now.content 0)) }
        ensures refused { IfErr result (λ refused.
            IfLine refused (LacksOffText self.now.content.kind self.now.content.rows (value_at self.now.content 0))) }
    {
        let places = points(alloc, &self.links, &self.labels, &self.pool, &self.rules)?;
        off_of(alloc, &self.links, &places)
    }
}
