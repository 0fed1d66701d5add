//! Laws of listings that are read.
//!
//! Each law is a function with no parameters and an empty body: what it ensures is the law. The lemmas behind the laws are in
//! `proofs/`. That a listing of version 2 is written again as it was is a law of `list_text`, beside its reader.
#![tactic(auto)]

ghost use Rattle.std.specs.Prelude.{◌≡◌, ℕ, List, [], Result, Ok};
ghost use Rattle.machine_defs.specs.Listing.{Listing};
ghost use Rattle.machine_defs.specs.ListingForm.{ListingFault, Told, told};
ghost use Rattle.machine_defs.specs.ListingFaults.{Reads, rules_of_values};

/// A text is read in one way: it tells one listing, or has one first fault.
///
/// For whoever reads `Reads`: its cases exclude each other.
pub fn one_reading()
    ensures { (text : List ℕ) (one other : Result Listing ListingFault) → Reads text one → Reads text other → one ≡ other }
{}

/// A listing of version 1 that is read is that of its lines, with the rule that keeps the first value and copies it for each
/// dimension that has a value, and without marks.
///
/// For whoever has listings of version 1: written again they have these rules, and nothing else in them is new.
pub fn version_one_gets_its_rules()
    ensures { (text : List ℕ) (t : Told) (l : Listing) → told text ≡ Ok t → t.version ≡ 1 → Reads text (Ok l)
        → l ≡ record {
          kind = t.listing.kind;
          dim = t.listing.dim;
          made = t.listing.made;
          rows = t.listing.rows;
          rules = rules_of_values t.listing.dim t.listing.values;
          values = t.listing.values;
          marks = [];
        } }
{}
