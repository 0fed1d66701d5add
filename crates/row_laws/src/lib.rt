//! Laws of the rows of a listing that is read: they are those of a lawful map, and none is shorter than nine bytes.
//!
//! Each law is a function with no parameters and an empty body: what it ensures is the law. The lemmas behind them are in
//! `proofs/`, for whoever reads listings.
#![tactic(auto)]

ghost use Rattle.std.specs.Prelude.{◌*◌, ◌≤◌, ℕ, List, length, Ok};
ghost use Rattle.map_defs.specs.Links.{LeadsToLive, HasDimension};
ghost use Rattle.map_defs.specs.Laws.{Laws};
ghost use Rattle.machine_defs.specs.Listing.{Listing};
ghost use Rattle.machine_defs.specs.ListingFaults.{HasRow, links_in, Reads};

/// A listing that is read tells a lawful map: its links keep the laws, lead to darts with rows alone, and are free above its
/// dimension; and 0 has no row.
///
/// For whoever makes something of a listing: what is asked of the links of a map holds of those of its rows.
pub fn read_rows_tell_a_map()
    ensures laws { (text : List ℕ) (l : Listing) → Reads text (Ok l) → Laws l.kind (links_in l.rows) }
    ensures live { (text : List ℕ) (l : Listing) → Reads text (Ok l) → LeadsToLive (HasRow l.rows) (links_in l.rows) }
    ensures dimension { (text : List ℕ) (l : Listing) → Reads text (Ok l) → HasDimension l.dim (links_in l.rows) }
    ensures nothing { (text : List ℕ) (l : Listing) → Reads text (Ok l) → HasRow l.rows 0 → ⊥ }
{}

/// A listing that is read has nine bytes for each row at least.
///
/// For whoever has to know how many darts a text can tell: one of 16 MiB has less than two millions.
pub fn rows_take_bytes()
    ensures { (text : List ℕ) (l : Listing) → Reads text (Ok l) → 9 * length l.rows ≤ length text }
{}
