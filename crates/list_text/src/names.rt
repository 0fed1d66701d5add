ghost use Rattle.std.specs.Prelude.{◌≡◌, true, [], ◌∷◌, ◌++◌, not, IfOk, IfErr, if◌then◌else◌};
ghost use Rattle.std.specs.List.{list_any};
ghost use Rattle.std.specs.Str.{bytes_eq};
ghost use Rattle.machine_defs.specs.Script.{is_name};

use crate::{ListFault, MarkName};
use std::alloc::Global;
use std::collections::BTreeSet;
use std::marker::Model;

/// Names of marks, of which no two are the same. Whether a name is one of them is looked up in a search tree and not by a
/// hash, so that no choice of names makes it slow. They are seen as the list of the names.
#[derive(Drop)]
pub(crate) struct Names<'a> {
    names: Vec<MarkName>,
    seen: BTreeSet<&'a str>,
}

impl<'a> Model for Names<'a> {
    ghost use Rattle.std.specs.Prelude.{ℕ, List, ◌≡◌};
    ghost use Rattle.std.specs.List.{list_any};
    ghost use Rattle.std.specs.Str.{bytes_eq};
    ghost use Rattle.std.specs.Ordering.{nat_cmp};
    ghost use Rattle.std.specs.Cmp.Lexicographic.{slice_cmp};
    ghost use Rattle.std.specs.BTreeSet.{contains_by};

    ghost Value = { List (List ℕ) };

    ghost view = { λ n. n.names.items };

    ghost invariant = { λ n. (q : List ℕ) → contains_by (λ k. slice_cmp nat_cmp q k.now) n.seen ≡ list_any (bytes_eq q) n.names.items };
}

impl<'a> Names<'a> {
    /// No names.
    pub(crate) fn new(alloc: Global) -> Names<'a>
        ensures { result ≡ [] }
    {
        Names {
            names: Vec::new(alloc),
            seen: BTreeSet::new(alloc),
        }
    }

    /// Puts a name behind the others, and says whether it is none of them; if it is, nothing changes.
    pub(crate) fn put(&mut self, name: &'a str) -> Result<bool, ListFault>
        requires { is_name name.now ≡ true }
        ensures new { IfOk result (λ new. new ≡ not (list_any (bytes_eq name.now) self.old)) }
        ensures names { IfOk result (λ new. self.new ≡ (if new then self.old ++ name.now ∷ [] else self.old)) }
        ensures fault { IfErr result (λ fault. fault ≡ ListFault.NoMemory) }
    {
        if self.seen.contains(name) {
            return Ok(false);
        }
        self.names.reserve(1)?;
        self.seen.insert(name)?;
        self.names.push_reserved(MarkName::new(name));
        Ok(true)
    }

    /// The names.
    pub(crate) fn into_names(self) -> Vec<MarkName>
        ensures { result.items ≡ self.entry }
    {
        let Names { names, seen } = self;
        drop(seen);
        names
    }
}
