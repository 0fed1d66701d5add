//! The files that a command needs.
ghost use Rattle.std.specs.Prelude.{◌≡◌, ℕ, ◌↔◌, List, Some, IfOk, IsErrOf};
ghost use Rattle.machine_defs.specs.Outside.{Files};
ghost use Rattle.machine_defs.specs.Program.{IsNeededBy};
ghost use Rattle.map_io.specs.Cause.{HasCause};
ghost use Rattle.map_run.specs.Commands.{mesh_name, run_of};
ghost use Rattle.map_run.specs.Texts.{AreFetched, AreShort, IsMeshFetched, MayAsk};

use crate::command::RunScript;
use map_io::{FetchFault, Shelf};
use off_text::TEXT_MAX;
use std::alloc::Global;

/// No fetched file is longer, in bytes: a script may be as long as the text of a mesh.
const FILE_LIMIT: u64 = TEXT_MAX;

/// The files of a command.
#[derive(Drop)]
pub struct Texts {
    /// The mesh, if the command names one.
    pub mesh: Option<Vec<u8>>,
    pub script: Vec<u8>,
}

/// Fetches the files of a command, the mesh before the script.
pub fn fetch_texts<F: Shelf>(
    alloc: Global,
    command: RunScript<'_>,
    shelf: &mut F,
) -> Result<Texts, FetchFault>
    requires asked { (name : List ℕ) → IsNeededBy (run_of command) name → F.may_ask shelf.old name }
    ensures short { IfOk result (λ texts. AreShort texts) }
    ensures fetched { (files : Files) → F.holds shelf.old ≡ Some files → AreFetched files command.entry result }
    ensures cause { HasCause (F.faults shelf.old) (F.faults shelf.new) (IsErrOf result FetchFault.Failed) }
{
    let mesh = fetch_mesh(alloc, command.mesh, shelf)?;
    let script = shelf.fetch(alloc, command.script, FILE_LIMIT)?;
    Ok(Texts { mesh, script })
}

/// Fetches a mesh, if one is named.
fn fetch_mesh<F: Shelf>(
    alloc: Global,
    name: Option<&str>,
    shelf: &mut F,
) -> Result<Option<Vec<u8>>, FetchFault>
    requires asked { MayAsk (F.may_ask shelf.old) (mesh_name name) }
    ensures fetched { IsMeshFetched (F.holds shelf.old) (mesh_name name.entry) result }
    ensures same { F.holds shelf.new ≡ F.holds shelf.old }
    ensures kept { (other : List ℕ) → F.may_ask shelf.old other ↔ F.may_ask shelf.new other }
    ensures cause { HasCause (F.faults shelf.old) (F.faults shelf.new) (IsErrOf result FetchFault.Failed) }
{
    match name {
        None => Ok(None),
        Some(name) => Ok(Some(shelf.fetch(alloc, name, FILE_LIMIT)?)),
    }
}
