//! Laws of dangling edges and centres: both keep the laws of a map, in either kind, and a centre makes triangles.
//!
//! Each law is a function with no parameters and an empty body: what it ensures is the law, for all links of its kind and
//! of every dimension. A proof uses it by a call. The two series of new darts are fresh and have no dart in common, as
//! they do where the one is numbered on after the other.
#![tactic(auto)]

ghost use Rattle.std.specs.Prelude.{◌≡◌, ◌≢◌, ◌↔◌, ◌≤◌, ◌+◌, ℕ, List, length, Bool, IsTrue};
ghost use Rattle.map_defs.specs.Kind.{Kind, alpha, beta};
ghost use Rattle.map_defs.specs.Links.{Links};
ghost use Rattle.map_defs.specs.Laws.{Laws};
ghost use Rattle.map_defs.specs.Cells.{InOrbit, InCell};
ghost use Rattle.map_defs.specs.Births.{IsFresh, IsNumbered};
ghost use Rattle.map_defs.specs.Insertion.{IsLinkedBy, InAlphaCorner, InBetaCorner};
ghost use Rattle.map_defs.specs.Closing.{IsAlphaDangled, IsBetaDangled, IsAlphaCentred, IsBetaCentred, IsBesideCentre};

/// A dangling edge at a corner keeps the laws of a generalized map.
///
/// For whoever plans it and applies it: it has no condition.
pub fn dangling_keeps_the_laws_of_alpha()
    ensures { (d : ℕ) (star tip : ℕ → ℕ) (L N : Links) → Laws alpha L → d ≢ 0
        → IsFresh L (InAlphaCorner L d) star → IsFresh L (InAlphaCorner L d) tip →
        ((x y : ℕ) → InAlphaCorner L d x → InAlphaCorner L d y → star x ≢ tip y)
        → IsAlphaDangled d star tip L N → Laws alpha N }
{}

/// A dangling edge at a corner that a side leads into keeps the laws of a combinatorial map.
///
/// For whoever plans it and applies it: its one condition is that the dart is not 0-free.
pub fn dangling_keeps_the_laws_of_beta()
    ensures { (d : ℕ) (star tip : ℕ → ℕ) (L N : Links) → Laws beta L → L 0 d ≢ 0
        → IsFresh L (InBetaCorner L d) star → IsFresh L (InBetaCorner L d) tip →
        ((x y : ℕ) → InBetaCorner L d x → InBetaCorner L d y → star x ≢ tip y)
        → IsBetaDangled d star tip L N → Laws beta N }
{}

/// A vertex in the middle of a face keeps the laws of a generalized map.
///
/// For whoever plans it and applies it: the laws do not need that the face is closed, though the operation asks for it.
pub fn centre_keeps_the_laws_of_alpha()
    ensures { (d : ℕ) (star tip : ℕ → ℕ) (L N : Links) → Laws alpha L → d ≢ 0
        → IsFresh L (InCell alpha L 2 d) star → IsFresh L (InCell alpha L 2 d) tip →
        ((x y : ℕ) → InCell alpha L 2 d x → InCell alpha L 2 d y → star x ≢ tip y)
        → IsAlphaCentred d star tip L N → Laws alpha N }
{}

/// A vertex in the middle of a face keeps the laws of a combinatorial map.
///
/// For whoever plans it and applies it: the laws do not need that the face is closed, though the operation asks for it.
pub fn centre_keeps_the_laws_of_beta()
    ensures { (d : ℕ) (star tip : ℕ → ℕ) (L N : Links) → Laws beta L → d ≢ 0
        → IsFresh L (InCell beta L 2 d) star → IsFresh L (InCell beta L 2 d) tip →
        ((x y : ℕ) → InCell beta L 2 d x → InCell beta L 2 d y → star x ≢ tip y)
        → IsBetaCentred d star tip L N → Laws beta N }
{}

/// Link 1 of a combinatorial map is one-to-one after a dangling edge and after a centre, as it is told of the new darts, of
/// those before them and of the others. Nothing is taken of the new link 0.
///
/// For a reader of the laws here: both operations ask of the new link 0 that it leads back where link 1 leads on. A link 0
/// that does so exists, since link 1 is one-to-one, and is one: `insert_laws` has both as laws. So this clause of the
/// operations shuts out no links from 1 upwards, and leaves no choice (`hung_links_exist`).
pub fn hung_link_one_is_one_to_one()
    ensures dangling { (d : ℕ) (star tip : ℕ → ℕ) (L N : Links) → Laws beta L
        → IsFresh L (InBetaCorner L d) star → IsFresh L (InBetaCorner L d) tip
        → ((x y : ℕ) → InBetaCorner L d x → InBetaCorner L d y → star x ≢ tip y)
        → ((x : ℕ) → InBetaCorner L d x → N 1 (L 0 x) ≡ star x)
        → ((x : ℕ) → InBetaCorner L d x → N 1 (star x) ≡ tip x)
        → ((x : ℕ) → InBetaCorner L d x → N 1 (tip x) ≡ x)
        → ((x : ℕ) → ((y : ℕ) → InBetaCorner L d y → x ≢ L 0 y)
        → ((y : ℕ) → InBetaCorner L d y → x ≢ star y) → ((y : ℕ) → InBetaCorner L d y → x ≢ tip y)
        → N 1 x ≡ L 1 x)
        → (x y : ℕ) → N 1 x ≢ 0 → N 1 x ≡ N 1 y → x ≡ y }
    ensures centre { (d : ℕ) (star tip : ℕ → ℕ) (L N : Links) → Laws beta L
        → IsFresh L (InCell beta L 2 d) star → IsFresh L (InCell beta L 2 d) tip
        → ((x y : ℕ) → InCell beta L 2 d x → InCell beta L 2 d y → star x ≢ tip y)
        → ((x : ℕ) → InCell beta L 2 d x → N 1 x ≡ star x)
        → ((x : ℕ) → InCell beta L 2 d x → N 1 (star x) ≡ tip x)
        → ((x : ℕ) → InCell beta L 2 d x → N 1 (tip x) ≡ x)
        → ((x : ℕ) → (InCell beta L 2 d x → ⊥) → ((y : ℕ) → InCell beta L 2 d y → x ≢ star y)
        → ((y : ℕ) → InCell beta L 2 d y → x ≢ tip y) → N 1 x ≡ L 1 x)
        → (x y : ℕ) → N 1 x ≢ 0 → N 1 x ≡ N 1 y → x ≡ y }
{}

/// A combinatorial map after a dangling edge or after a centre exists where its links from 1 upwards do: links that meet all
/// clauses on these, and that leave each dart above some bound without a link 1, get a link 0 with which they meet the
/// operation's whole record.
///
/// For a reader of the laws here: what both operations ask of the new link 0 can always be had, so no law holds only because
/// such a link 0 is wanting.
pub fn hung_links_exist()
    ensures dangling { (d bound : ℕ) (star tip : ℕ → ℕ) (L M : Links) → Laws beta L
        → IsFresh L (InBetaCorner L d) star → IsFresh L (InBetaCorner L d) tip
        → ((x y : ℕ) → InBetaCorner L d x → InBetaCorner L d y → star x ≢ tip y)
        → ((x : ℕ) → InBetaCorner L d x → M 1 (L 0 x) ≡ star x)
        → ((x : ℕ) → InBetaCorner L d x → M 1 (star x) ≡ tip x)
        → ((x : ℕ) → InBetaCorner L d x → M 1 (tip x) ≡ x)
        → ((x : ℕ) → InBetaCorner L d x → M 2 (star x) ≡ tip x)
        → ((x : ℕ) → InBetaCorner L d x → M 2 (tip x) ≡ star x)
        → ((x j : ℕ) → InBetaCorner L d x → 3 ≤ j → M j (star x) ≡ tip (L j (L 0 x)))
        → ((x j : ℕ) → InBetaCorner L d x → 3 ≤ j → M j (tip x) ≡ star (L j (L 0 x)))
        → ((x t : ℕ) → 1 ≤ t → ((y : ℕ) → InBetaCorner L d y → t ≡ 1 → x ≢ L 0 y)
        → ((y : ℕ) → InBetaCorner L d y → x ≢ star y) → ((y : ℕ) → InBetaCorner L d y → x ≢ tip y)
        → M t x ≡ L t x)
        → ((x : ℕ) → M 1 x ≢ 0 → x ≤ bound)
        → (N : Links) × ((t x : ℕ) → 1 ≤ t → N t x ≡ M t x) × IsBetaDangled d star tip L N }
    ensures centre { (d bound : ℕ) (star tip : ℕ → ℕ) (L M : Links) → Laws beta L
        → IsFresh L (InCell beta L 2 d) star → IsFresh L (InCell beta L 2 d) tip
        → ((x y : ℕ) → InCell beta L 2 d x → InCell beta L 2 d y → star x ≢ tip y)
        → ((x : ℕ) → InCell beta L 2 d x → M 1 x ≡ star x)
        → ((x : ℕ) → InCell beta L 2 d x → M 1 (star x) ≡ tip x)
        → ((x : ℕ) → InCell beta L 2 d x → M 1 (tip x) ≡ x)
        → ((x : ℕ) → InCell beta L 2 d x → M 2 (star x) ≡ tip (L 1 x))
        → ((x : ℕ) → InCell beta L 2 d x → M 2 (tip x) ≡ star (L 0 x))
        → ((x j : ℕ) → InCell beta L 2 d x → 3 ≤ j → M j (star x) ≡ tip (L j x))
        → ((x j : ℕ) → InCell beta L 2 d x → 3 ≤ j → M j (tip x) ≡ star (L j x))
        → ((x t : ℕ) → 1 ≤ t → (InCell beta L 2 d x → t ≢ 1) → ((y : ℕ) → InCell beta L 2 d y → x ≢ star y)
        → ((y : ℕ) → InCell beta L 2 d y → x ≢ tip y) → M t x ≡ L t x)
        → ((x : ℕ) → M 1 x ≢ 0 → x ≤ bound)
        → (N : Links) × ((t x : ℕ) → 1 ≤ t → N t x ≡ M t x) × IsBetaCentred d star tip L N }
{}

/// A vertex in the middle of a face of a generalized map makes triangles around one vertex. Three steps along link 0 and
/// then link 1 lead from each dart of the old face back to it, if its link 0 is not free. The ends of the new edges, one
/// new dart for each dart of the old face, are one vertex and all of it. And two darts of the old face lie in one new face
/// exactly where links 0 and those from 3 upwards lead from one to the other.
///
/// For whoever makes triangles of faces, and for whoever looks for the new vertex or the new face of an old side.
pub fn centre_makes_triangles_of_alpha()
    ensures around { (d : ℕ) (star tip : ℕ → ℕ) (L N : Links) → Laws alpha L → d ≢ 0
        → IsFresh L (InCell alpha L 2 d) star → IsFresh L (InCell alpha L 2 d) tip
        → ((x y : ℕ) → InCell alpha L 2 d x → InCell alpha L 2 d y → star x ≢ tip y)
        → IsAlphaCentred d star tip L N → (x : ℕ) → InCell alpha L 2 d x → L 0 x ≢ 0
        → N 1 (N 0 (N 1 (N 0 (N 1 (N 0 x))))) ≡ x }
    ensures middle { (d : ℕ) (star tip : ℕ → ℕ) (L N : Links) → Laws alpha L → d ≢ 0
        → IsFresh L (InCell alpha L 2 d) star → IsFresh L (InCell alpha L 2 d) tip
        → ((x y : ℕ) → InCell alpha L 2 d x → InCell alpha L 2 d y → star x ≢ tip y)
        → IsAlphaCentred d star tip L N → (x z : ℕ) → InCell alpha L 2 d x
        → InCell alpha N 0 (tip x) z ↔ ((y : ℕ) × InCell alpha L 2 d y × (z ≡ tip y)) }
    ensures faces { (d : ℕ) (star tip : ℕ → ℕ) (L N : Links) → Laws alpha L → d ≢ 0
        → IsFresh L (InCell alpha L 2 d) star → IsFresh L (InCell alpha L 2 d) tip
        → ((x y : ℕ) → InCell alpha L 2 d x → InCell alpha L 2 d y → star x ≢ tip y)
        → IsAlphaCentred d star tip L N → (x y : ℕ) → InCell alpha L 2 d x
        → InCell alpha L 2 d y
        → InCell alpha N 2 x y ↔ InOrbit (IsLinkedBy L (IsBesideCentre alpha)) x y }
{}

/// A vertex in the middle of a face of a combinatorial map makes triangles around one vertex. Three steps along link 1 lead
/// from each dart of the old face back to it. The ends of the new edges, one new dart for each dart of the old face, are
/// one vertex and all of it. And two darts of the old face lie in one new face exactly where links from 3 upwards lead
/// from one to the other.
///
/// For whoever makes triangles of faces, and for whoever looks for the new vertex or the new face of an old side.
pub fn centre_makes_triangles_of_beta()
    ensures around { (d : ℕ) (star tip : ℕ → ℕ) (L N : Links) → Laws beta L → d ≢ 0
        → IsFresh L (InCell beta L 2 d) star → IsFresh L (InCell beta L 2 d) tip
        → ((x y : ℕ) → InCell beta L 2 d x → InCell beta L 2 d y → star x ≢ tip y)
        → IsBetaCentred d star tip L N → (x : ℕ) → InCell beta L 2 d x
        → N 1 (N 1 (N 1 x)) ≡ x }
    ensures middle { (d : ℕ) (star tip : ℕ → ℕ) (L N : Links) → Laws beta L → d ≢ 0
        → IsFresh L (InCell beta L 2 d) star → IsFresh L (InCell beta L 2 d) tip
        → ((x y : ℕ) → InCell beta L 2 d x → InCell beta L 2 d y → star x ≢ tip y)
        → IsBetaCentred d star tip L N → (x z : ℕ) → InCell beta L 2 d x
        → InCell beta N 0 (tip x) z ↔ ((y : ℕ) × InCell beta L 2 d y × (z ≡ tip y)) }
    ensures faces { (d : ℕ) (star tip : ℕ → ℕ) (L N : Links) → Laws beta L → d ≢ 0
        → IsFresh L (InCell beta L 2 d) star → IsFresh L (InCell beta L 2 d) tip
        → ((x y : ℕ) → InCell beta L 2 d x → InCell beta L 2 d y → star x ≢ tip y)
        → IsBetaCentred d star tip L N → (x y : ℕ) → InCell beta L 2 d x
        → InCell beta L 2 d y
        → InCell beta N 2 x y ↔ InOrbit (IsLinkedBy L (IsBesideCentre beta)) x y }
{}

/// Two series of new darts, one dart in each for each dart of a set, are fresh and have no dart in common, where the first
/// is numbered on from the number made so far, the second after it, and no dart above that number is linked. So it is for
/// each set that can be told, and for the corners and the face on which edges are hung.
///
/// For whoever plans a dangling edge or a centre: with the numbering of the program the premises of the laws here hold.
pub fn numbered_series_are_fresh()
    ensures told { (K : ℕ → Bool) (keys : List ℕ) (made : ℕ) (star tip : ℕ → ℕ) (L : Links)
        → IsNumbered (λ x. IsTrue (K x)) keys made star
        → IsNumbered (λ x. IsTrue (K x)) keys (made + length keys) tip
        → ((x : ℕ) → IsTrue (K x) → x ≤ made) → ((t x : ℕ) → L t x ≢ 0 → x ≤ made)
        → IsFresh L (λ x. IsTrue (K x)) star × IsFresh L (λ x. IsTrue (K x)) tip
        × ((x y : ℕ) → IsTrue (K x) → IsTrue (K y) → star x ≢ tip y) }
    ensures corner_of_alpha { (d : ℕ) (keys : List ℕ) (made : ℕ) (star tip : ℕ → ℕ) (L : Links)
        → IsNumbered (InAlphaCorner L d) keys made star
        → IsNumbered (InAlphaCorner L d) keys (made + length keys) tip
        → ((x : ℕ) → InAlphaCorner L d x → x ≤ made) → ((t x : ℕ) → L t x ≢ 0 → x ≤ made)
        → IsFresh L (InAlphaCorner L d) star × IsFresh L (InAlphaCorner L d) tip
        × ((x y : ℕ) → InAlphaCorner L d x → InAlphaCorner L d y → star x ≢ tip y) }
    ensures corner_of_beta { (d : ℕ) (keys : List ℕ) (made : ℕ) (star tip : ℕ → ℕ) (L : Links)
        → IsNumbered (InBetaCorner L d) keys made star
        → IsNumbered (InBetaCorner L d) keys (made + length keys) tip
        → ((x : ℕ) → InBetaCorner L d x → x ≤ made) → ((t x : ℕ) → L t x ≢ 0 → x ≤ made)
        → IsFresh L (InBetaCorner L d) star × IsFresh L (InBetaCorner L d) tip
        × ((x y : ℕ) → InBetaCorner L d x → InBetaCorner L d y → star x ≢ tip y) }
    ensures face { (k : Kind) (d : ℕ) (keys : List ℕ) (made : ℕ) (star tip : ℕ → ℕ) (L : Links)
        → IsNumbered (InCell k L 2 d) keys made star
        → IsNumbered (InCell k L 2 d) keys (made + length keys) tip
        → ((x : ℕ) → InCell k L 2 d x → x ≤ made) → ((t x : ℕ) → L t x ≢ 0 → x ≤ made)
        → IsFresh L (InCell k L 2 d) star × IsFresh L (InCell k L 2 d) tip
        × ((x y : ℕ) → InCell k L 2 d x → InCell k L 2 d y → star x ≢ tip y) }
{}
