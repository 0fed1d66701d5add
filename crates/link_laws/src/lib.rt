//! Laws of links: the two forms of a map's laws, and that sewing and unsewing keep them and undo each other.
//!
//! Each law is a function with no parameters and an empty body: what it ensures is the law, for all links of both kinds
//! and of every dimension. A proof uses it by a call. The lemmas behind them are in `proofs/`, for other laws to build on.
#![tactic(auto)]

ghost use Rattle.std.specs.Prelude.{◌≡◌, ◌≢◌, ◌↔◌, ◌≤◌, ℕ, length};
ghost use Rattle.map_defs.specs.Kind.{Kind};
ghost use Rattle.map_defs.specs.Links.{Links, LeadsToLive};
ghost use Rattle.map_defs.specs.Laws.{IsLawful, Laws};
ghost use Rattle.map_defs.specs.Sewing.{IsSewable, IsSewn, IsUnsewn};
ghost use Rattle.map_defs.specs.Rows.{Rows, AreWide, IsLive, links_of};

/// The laws as they are told and the laws in the form that proofs use say the same.
///
/// For whoever reads a clause with one form and needs the other: what the kernel promises of each map is the told form.
pub fn laws_are_as_told()
    ensures { (k : Kind) (L : Links) → IsLawful k L ↔ Laws k L }
{}

/// Sewing two darts that can be sewn keeps the laws.
///
/// For whoever plans a sewing and applies it: the map stays a map, also in combinatorial maps with free links.
pub fn sewing_keeps_the_laws()
    ensures { (k : Kind) (i d e : ℕ) (L N : Links) → Laws k L → d ≢ 0 → e ≢ 0 → IsSewable k L i d e
        → IsSewn k i d e L N → Laws k N }
{}

/// Unsewing a dart keeps the laws.
///
/// For whoever plans an unsewing and applies it; it has no condition.
pub fn unsewing_keeps_the_laws()
    ensures { (k : Kind) (i d : ℕ) (L N : Links) → Laws k L → IsUnsewn k i d L N → Laws k N }
{}

/// Unsewing a dart right after it was sewn is possible and gives all links back.
///
/// For an editor that takes a sewing back without a journal.
pub fn unsewing_undoes_sewing()
    ensures linked { (k : Kind) (i d e : ℕ) (L N : Links) → Laws k L → d ≢ 0 → e ≢ 0 → IsSewable k L i d e
        → IsSewn k i d e L N → N i d ≢ 0 }
    ensures back { (k : Kind) (i d e : ℕ) (L N M : Links) → Laws k L → d ≢ 0 → e ≢ 0 → IsSewable k L i d e
        → IsSewn k i d e L N → IsUnsewn k i d N M → (t x : ℕ) → M t x ≡ L t x }
{}

/// There is one map with given live darts and links: rows of one number are the same where the same darts live and have
/// the same links.
///
/// For whoever shows that two ways lead to one map, as undoing and the copy of a mark: it is enough to compare links.
pub fn links_tell_the_rows()
    ensures { (n : ℕ) (a b : Rows) → AreWide n a → AreWide n b → length a ≡ length b
        → ((d : ℕ) → IsLive a d ↔ IsLive b d) → ((i d : ℕ) → i ≤ n → links_of a i d ≡ links_of b i d)
        → a ≡ b }
{}

/// Links lead to live darts alone.
///
/// For whoever follows a link: where it is not free, there is a row behind it.
pub fn links_lead_to_live_darts()
    ensures { (k : Kind) (rows : Rows) → Laws k (links_of rows)
        → LeadsToLive (IsLive rows) (links_of rows) }
{}
