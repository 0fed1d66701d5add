ghost use Rattle.std.specs.Prelude.{◌≡◌, ◌*◌, ◌≤◌, [], ◌∷◌, None, length, IfOk, IfErr};
ghost use Rattle.map_defs.specs.Edits.{after_edit, linked};
ghost use Rattle.map_defs.specs.Polygon.{per_side};
ghost use Rattle.mesh_build.specs.Sides.{sides_view};
ghost use Rattle.mesh_laws.specs.Sides.{kind_of, IsSewn};
ghost use Rattle.mesh_laws.specs.SideLinks.{entry_change, entry_changes, mesh_edit};
ghost use Rattle.mesh_build.specs.EntriesView.{entries_view};

use crate::MeshFault;
use crate::edit::{Entries, dart_entries, per_side};
use crate::sew::Sewn;
use link_rows::{LinkBuilder, Links, MADE_MAX};
use map_kind::{Dart, Kind};
use std::alloc::Global;

/// The links of the darts of these sides, which are those that the sides' edit makes from nothing.
pub fn links_of<K: Kind, const DIM: usize>(
    alloc: Global,
    oriented: bool,
    sewn: &Sewn,
) -> Result<Links<K, DIM>, MeshFault>
    requires low { 2 ≤ DIM }
    requires high { DIM ≤ 8 }
    requires kind { K.kind ≡ kind_of oriented }
    requires sewn { IsSewn oriented (sides_view sewn.now.sides) sewn.now.partners.items }
    requires few { per_side (kind_of oriented) * length sewn.now.sides.items ≤ MADE_MAX }
    ensures rows { IfOk result (λ links. links.rows
        ≡ after_edit DIM (mesh_edit (kind_of oriented) (sides_view sewn.now.sides) sewn.now.partners.items) (None ∷ [])) }
    ensures err { IfErr result (λ fault. fault ≡ MeshFault.NoMemory) }
{
    let darts = per_side(oriented) * sewn.sides.len() as u32;
    let Ok(mut builder) = LinkBuilder::new(alloc, darts) else {
        return Err(MeshFault::NoMemory);
    };
    for number in 1..darts + 1 {
        set_entries(
            &mut builder,
            Dart::new(number).unwrap(),
            dart_entries(oriented, sewn, number),
        );
    }
    Ok(builder.finish())
}

/// Sets the links of a dart that are not free.
fn set_entries<K: Kind, const DIM: usize>(
    builder: &mut LinkBuilder<K, DIM>,
    dart: Dart,
    entries: Entries,
)
    requires { 2 ≤ DIM }
    ensures { builder.new.rows ≡ linked (entry_changes dart (entries_view entries)) builder.old.rows }
{
    set_entry(builder, dart, 0, entries.zeroth);
    set_entry(builder, dart, 1, entries.first);
    set_entry(builder, dart, 2, entries.second);
}

/// Sets a link of a dart, unless it is free.
fn set_entry<K: Kind, const DIM: usize>(
    builder: &mut LinkBuilder<K, DIM>,
    dart: Dart,
    link: usize,
    to: u32,
)
    requires { link ≤ DIM }
    ensures { builder.new.rows ≡ linked (entry_change dart link to) builder.old.rows }
{
    if to != 0 {
        builder.set(dart, link, to);
    }
}
