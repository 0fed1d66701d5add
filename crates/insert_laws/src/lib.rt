//! Laws of insertion: a vertex, an edge or a face that is inserted keeps the laws of a map, and so does closing.
//!
//! Each law is a function with no parameters and an empty body: what it ensures is the law, for all links of its kind and
//! of every dimension. A proof uses it by a call. The lemmas behind them are in `proofs/`, for other laws to build on.
#![tactic(auto)]

ghost use Rattle.std.specs.Prelude.{◌≡◌, ◌≢◌, ◌<◌, ◌≤◌, ◌↔◌, ℕ, suc, List, length, Bool, Contains, IsTrue};
ghost use Rattle.map_defs.specs.Kind.{Kind, alpha, beta, inverse, IsDistant};
ghost use Rattle.map_defs.specs.Links.{Links, IsTurned, LeadsToLive};
ghost use Rattle.map_defs.specs.Laws.{Laws};
ghost use Rattle.map_defs.specs.Cells.{InCell};
ghost use Rattle.map_defs.specs.Births.{IsFresh, IsNumbered, AreBorn, IsCounted};
ghost use Rattle.map_defs.specs.Insertion.{IsJustBelow, IsInsertable, IsInserted, IsAlphaVertex, AlphaEdgeDarts, AreAlphaEdgePaired, IsAlphaEdge, IsBetaVertex, InBetaCorner, AreBetaEdgePaired, BetaEdgeDarts, BetaEdgeLeads, IsBetaEdge, FaceDarts, IsClosedPath, IsFacePaired, IsFace};
ghost use Rattle.map_defs.specs.Inserting.{EdgeDarts};
ghost use Rattle.map_defs.specs.Closing.{IsOpen, IsAround, IsClosed};
ghost use Rattle.map_defs.specs.Rows.{Rows, IsLive};

/// An insertion in general keeps the laws, at any link and in both kinds, where its set and its pairs meet the premises. So
/// it is where the set and the pairs can be told, and for the live darts free at a link, paired around the boundary. For the
/// sets and pairs of a vertex and an edge of a generalized map, and of a face, there are laws of their own.
///
/// For whoever adds an operation of his own that makes one new dart beyond a link of each dart of a set: it is enough to
/// meet the premises of `IsInsertable`.
pub fn insertion_keeps_the_laws()
    ensures told { (k : Kind) (i : ℕ) (K : ℕ → Bool) (P : ℕ → ℕ → ℕ → Bool) (star : ℕ → ℕ) (L N : Links)
        → Laws k L → IsInsertable k i (λ x. IsTrue (K x)) (λ x y t. IsTrue (P x y t)) L
        → IsFresh L (λ x. IsTrue (K x)) star
        → IsInserted k i (λ x. IsTrue (K x)) (λ x y t. IsTrue (P x y t)) star L N → Laws k N }
    ensures closing { (k : Kind) (i : ℕ) (rows : Rows) (star : ℕ → ℕ) (L N : Links) → Laws k L
        → IsInsertable k i (IsOpen (IsLive rows) i L)
        (λ x y t. IsOpen (IsLive rows) i L x × IsJustBelow k i t × IsAround k i t L x y) L
        → IsFresh L (IsOpen (IsLive rows) i L) star
        → IsInserted k i (IsOpen (IsLive rows) i L)
        (λ x y t. IsOpen (IsLive rows) i L x × IsJustBelow k i t × IsAround k i t L x y) star L N
        → Laws k N }
{}

/// New darts that are numbered on from the number made so far are fresh where no dart above that number is linked. So it is
/// for each set that can be told, and for the sets of the operations: a cell, as the edge on which a vertex is inserted, the
/// darts of an edge and of a face that are inserted, and the live darts free at a link, at which a map is closed.
///
/// For whoever plans an insertion: with the numbering of the program the premise `IsFresh` of the laws here holds.
pub fn numbered_darts_are_fresh()
    ensures told { (K : ℕ → Bool) (keys : List ℕ) (made : ℕ) (star : ℕ → ℕ) (L : Links)
        → IsNumbered (λ x. IsTrue (K x)) keys made star → ((x : ℕ) → IsTrue (K x) → x ≤ made) →
        ((t x : ℕ) → L t x ≢ 0 → x ≤ made) → IsFresh L (λ x. IsTrue (K x)) star }
    ensures vertex { (k : Kind) (i d : ℕ) (keys : List ℕ) (made : ℕ) (star : ℕ → ℕ) (L : Links)
        → IsNumbered (InCell k L i d) keys made star → ((x : ℕ) → InCell k L i d x → x ≤ made)
        → ((t x : ℕ) → L t x ≢ 0 → x ≤ made) → IsFresh L (InCell k L i d) star }
    ensures edge { (k : Kind) (d e : ℕ) (keys : List ℕ) (made : ℕ) (star : ℕ → ℕ) (L : Links)
        → IsNumbered (EdgeDarts k L d e) keys made star → ((x : ℕ) → EdgeDarts k L d e x → x ≤ made)
        → ((t x : ℕ) → L t x ≢ 0 → x ≤ made) → IsFresh L (EdgeDarts k L d e) star }
    ensures face { (k : Kind) (path : List ℕ) (keys : List ℕ) (made : ℕ) (star : ℕ → ℕ) (L : Links)
        → IsNumbered (FaceDarts k L path) keys made star → ((x : ℕ) → FaceDarts k L path x → x ≤ made)
        → ((t x : ℕ) → L t x ≢ 0 → x ≤ made) → IsFresh L (FaceDarts k L path) star }
    ensures closing { (i : ℕ) (rows : Rows) (keys : List ℕ) (made : ℕ) (star : ℕ → ℕ) (L : Links)
        → IsNumbered (IsOpen (IsLive rows) i L) keys made star
        → ((x : ℕ) → IsOpen (IsLive rows) i L x → x ≤ made)
        → ((t x : ℕ) → L t x ≢ 0 → x ≤ made) → IsFresh L (IsOpen (IsLive rows) i L) star }
{}

/// A vertex on an edge keeps the laws of a generalized map.
///
/// For whoever plans it and applies it: it has no condition.
pub fn vertex_keeps_the_laws_of_alpha()
    ensures { (d : ℕ) (star : ℕ → ℕ) (L N : Links) → Laws alpha L → d ≢ 0
        → IsFresh L (InCell alpha L 1 d) star → IsAlphaVertex d star L N → Laws alpha N }
{}

/// An edge whose pairs are good keeps the laws of a generalized map, also where it joins corners of two faces.
///
/// For whoever plans it and applies it: of its three conditions the laws need good pairs alone.
pub fn edge_keeps_the_laws_of_alpha()
    ensures { (d e : ℕ) (star : ℕ → ℕ) (L N : Links) → Laws alpha L → d ≢ 0 → e ≢ 0
        → AreAlphaEdgePaired L d e → IsFresh L (AlphaEdgeDarts L d e) star → IsAlphaEdge d e star L N
        → Laws alpha N }
{}

/// A vertex on an edge keeps the laws of a combinatorial map.
///
/// For whoever plans it and applies it: it has no condition.
pub fn vertex_keeps_the_laws_of_beta()
    ensures { (d : ℕ) (star : ℕ → ℕ) (L N : Links) → Laws beta L → d ≢ 0
        → IsFresh L (InCell beta L 1 d) star → IsBetaVertex d star L N → Laws beta N }
{}

/// An edge between two corners of a combinatorial map keeps the laws, where neither is a copy of the other and the pairs
/// are good.
///
/// For whoever plans it and applies it: the laws need no corners of one face. They need two corners, since an edge from a
/// corner to itself would join its one new dart to itself.
pub fn edge_keeps_the_laws_of_beta()
    ensures { (d e : ℕ) (star : ℕ → ℕ) (L N : Links) → Laws beta L → (InBetaCorner L d e → ⊥)
        → AreBetaEdgePaired L d e → IsFresh L (BetaEdgeDarts L d e) star → IsBetaEdge d e star L N
        → Laws beta N }
{}

/// The new link 1 of a combinatorial map is one-to-one after a vertex, after an edge and after closing at a link from 2
/// upwards, as it is told of the new darts, of those before them and of the others. Nothing is taken of the new link 0.
///
/// For a reader of the laws here: the operations ask of the new link 0 that it leads back where link 1 leads on. A link 0
/// that does so exists, since link 1 is one-to-one (`link_zero_is_found`), and is one (`link_zero_is_one`). So this clause of
/// the operations shuts out no links from 1 upwards, and leaves no choice (`new_links_exist`).
pub fn new_link_one_is_one_to_one()
    ensures vertex { (d : ℕ) (star : ℕ → ℕ) (L N : Links) → Laws beta L
        → IsFresh L (InCell beta L 1 d) star
        → ((x : ℕ) → InCell beta L 1 d x → N 1 x ≡ star x)
        → ((x : ℕ) → InCell beta L 1 d x → N 1 (star x) ≡ L 1 x)
        → ((x : ℕ) → (InCell beta L 1 d x → ⊥) → ((y : ℕ) → InCell beta L 1 d y → x ≢ star y)
        → N 1 x ≡ L 1 x)
        → (x y : ℕ) → N 1 x ≢ 0 → N 1 x ≡ N 1 y → x ≡ y }
    ensures edge { (d e : ℕ) (star : ℕ → ℕ) (L N : Links) → Laws beta L → (InBetaCorner L d e → ⊥)
        → AreBetaEdgePaired L d e → IsFresh L (BetaEdgeDarts L d e) star
        → ((x y : ℕ) → BetaEdgeLeads L d e x y → N 1 (L 0 x) ≡ star x)
        → ((x y : ℕ) → BetaEdgeLeads L d e x y → N 1 (star x) ≡ y)
        → ((x : ℕ) → ((c y : ℕ) → BetaEdgeLeads L d e c y → x ≢ L 0 c)
        → ((c y : ℕ) → BetaEdgeLeads L d e c y → x ≢ star c) → N 1 x ≡ L 1 x)
        → (x y : ℕ) → N 1 x ≢ 0 → N 1 x ≡ N 1 y → x ≡ y }
    ensures closing { (rows : Rows) (keys : List ℕ) (made : ℕ) (star : ℕ → ℕ) (L N : Links) → Laws beta L
        → IsCounted made (IsLive rows) → LeadsToLive (IsLive rows) L
        → IsNumbered (IsOpen (IsLive rows) 2 L) keys made star
        → ((x y : ℕ) → IsOpen (IsLive rows) 2 L x → IsAround beta 2 1 L x y → N 1 (star x) ≡ star y)
        → ((x : ℕ) → ((y : ℕ) → IsOpen (IsLive rows) 2 L y → x ≢ star y) → N 1 x ≡ L 1 x)
        → (x y : ℕ) → N 1 x ≢ 0 → N 1 x ≡ N 1 y → x ≡ y }
    ensures closing_above { (i : ℕ) (rows : Rows) (keys : List ℕ) (made : ℕ) (star : ℕ → ℕ) (L N : Links)
        → 3 ≤ i → Laws beta L → IsCounted made (IsLive rows) → LeadsToLive (IsLive rows) L
        → IsNumbered (IsOpen (IsLive rows) i L) keys made star
        → ((x : ℕ) → IsOpen (IsLive rows) i L x → N 1 (star x) ≡ star (L 0 x))
        → ((x : ℕ) → ((y : ℕ) → IsOpen (IsLive rows) i L y → x ≢ star y) → N 1 x ≡ L 1 x)
        → (x y : ℕ) → N 1 x ≢ 0 → N 1 x ≡ N 1 y → x ≡ y }
{}

/// Where a link 1 is one-to-one and no dart above some bound is linked by it, there is a link 0 that leads back where it
/// leads on, and that is free at each other dart: the dart before y is found among the darts up to the bound.
///
/// For a reader of the laws here: with `new_link_one_is_one_to_one` the link 0 for which an operation asks exists.
pub fn link_zero_is_found()
    ensures { (f : ℕ → ℕ) (bound : ℕ) → ((x : ℕ) → f x ≢ 0 → x ≤ bound)
        → ((x y : ℕ) → f x ≢ 0 → f x ≡ f y → x ≡ y)
        → (g : ℕ → ℕ) × (g 0 ≡ 0) × ((x y : ℕ) → x ≢ 0 → y ≢ 0 → (f x ≡ y) ↔ (g y ≡ x)) }
{}

/// Link 1 leaves no choice of link 0: two links that lead back where link 1 leads on are the same at every dart.
///
/// For a reader of the laws here: the link 0 for which an operation asks is one, so what it tells of link 1 tells all of
/// link 0.
pub fn link_zero_is_one()
    ensures { (N M : Links) → IsTurned N → IsTurned M → ((x : ℕ) → N 1 x ≡ M 1 x) → (x : ℕ) → N 0 x ≡ M 0 x }
{}

/// A combinatorial map after a vertex, after an edge or after closing exists where its links from 1 upwards do: links that
/// meet all clauses on these, and that leave each dart above some bound without a link 1, get a link 0 with which they meet
/// the operation's whole record.
///
/// For a reader of the laws here: what the operations ask of the new link 0 can always be had, so no law holds only because
/// such a link 0 is wanting. It is one, too (`link_zero_is_one`).
pub fn new_links_exist()
    ensures vertex { (d bound : ℕ) (star : ℕ → ℕ) (L M : Links) → Laws beta L
        → IsFresh L (InCell beta L 1 d) star
        → ((x : ℕ) → InCell beta L 1 d x → M 1 x ≡ star x)
        → ((x : ℕ) → InCell beta L 1 d x → M 1 (star x) ≡ L 1 x)
        → ((x j : ℕ) → InCell beta L 1 d x → 2 ≤ j → M j x ≡ star (L j x))
        → ((x j : ℕ) → InCell beta L 1 d x → 2 ≤ j → M j (star x) ≡ L j x)
        → ((x t : ℕ) → 1 ≤ t → (InCell beta L 1 d x → ⊥) → ((y : ℕ) → InCell beta L 1 d y → x ≢ star y)
        → M t x ≡ L t x)
        → ((x : ℕ) → M 1 x ≢ 0 → x ≤ bound)
        → (N : Links) × ((t x : ℕ) → 1 ≤ t → N t x ≡ M t x) × IsBetaVertex d star L N }
    ensures edge { (d e bound : ℕ) (star : ℕ → ℕ) (L M : Links) → Laws beta L → (InBetaCorner L d e → ⊥)
        → AreBetaEdgePaired L d e → IsFresh L (BetaEdgeDarts L d e) star
        → ((x y : ℕ) → BetaEdgeLeads L d e x y → M 1 (L 0 x) ≡ star x)
        → ((x y : ℕ) → BetaEdgeLeads L d e x y → M 1 (star x) ≡ y)
        → ((x y : ℕ) → BetaEdgeLeads L d e x y → M 2 (star x) ≡ star y)
        → ((x y j : ℕ) → BetaEdgeLeads L d e x y → 3 ≤ j → M j (star x) ≡ star (L j (L 0 y)))
        → ((x t : ℕ) → 1 ≤ t → ((c y : ℕ) → BetaEdgeLeads L d e c y → t ≡ 1 → x ≢ L 0 c)
        → ((c y : ℕ) → BetaEdgeLeads L d e c y → x ≢ star c) → M t x ≡ L t x)
        → ((x : ℕ) → M 1 x ≢ 0 → x ≤ bound)
        → (N : Links) × ((t x : ℕ) → 1 ≤ t → N t x ≡ M t x) × IsBetaEdge d e star L N }
    ensures closing { (i : ℕ) (rows : Rows) (keys : List ℕ) (made bound : ℕ) (star : ℕ → ℕ) (L M : Links)
        → 2 ≤ i → Laws beta L → IsCounted made (IsLive rows) → LeadsToLive (IsLive rows) L
        → IsNumbered (IsOpen (IsLive rows) i L) keys made star
        → ((x : ℕ) → IsOpen (IsLive rows) i L x → M i x ≡ star x)
        → ((x : ℕ) → IsOpen (IsLive rows) i L x → M i (star x) ≡ x)
        → ((x : ℕ) → IsOpen (IsLive rows) i L x → M (suc i) (star x) ≡ 0)
        → ((x j : ℕ) → 1 ≤ j → IsOpen (IsLive rows) i L x → IsDistant beta i j
        → M j (star x) ≡ star (L (inverse beta j) x))
        → ((x y t : ℕ) → IsOpen (IsLive rows) i L x → suc t ≡ i → IsAround beta i t L x y
        → M t (star x) ≡ star y)
        → ((x t : ℕ) → 1 ≤ t → (IsOpen (IsLive rows) i L x → t ≢ i)
        → ((y : ℕ) → IsOpen (IsLive rows) i L y → x ≢ star y) → M t x ≡ L t x)
        → ((x : ℕ) → M 1 x ≢ 0 → x ≤ bound)
        → (N : Links) × ((t x : ℕ) → 1 ≤ t → N t x ≡ M t x) × IsClosed beta i (IsLive rows) star L N }
{}

/// A face along a closed path whose pairs are good keeps the laws of a map of either kind.
///
/// For whoever plans it and applies it: the laws need no path on one volume.
pub fn face_keeps_the_laws()
    ensures { (k : Kind) (path : List ℕ) (star : ℕ → ℕ) (L N : Links) → Laws k L
        → ((b : ℕ) → Contains path b → b ≢ 0) → IsClosedPath k L path → IsFacePaired k L path
        → IsFresh L (FaceDarts k L path) star → IsFace k path star L N → Laws k N }
{}

/// Closing at a link keeps the laws of a map of either kind, where a test tells the live darts and where rows tell them.
///
/// For whoever plans it and applies it: its condition is that the link is its own inverse, which all links of a generalized
/// map are, and those from 2 upwards in a combinatorial map.
pub fn closing_keeps_the_laws()
    ensures told { (k : Kind) (i : ℕ) (Live : ℕ → Bool) (keys : List ℕ) (made : ℕ) (star : ℕ → ℕ) (L N : Links)
        → inverse k i ≡ i → Laws k L → IsCounted made (λ x. IsTrue (Live x))
        → LeadsToLive (λ x. IsTrue (Live x)) L
        → IsNumbered (IsOpen (λ x. IsTrue (Live x)) i L) keys made star
        → IsClosed k i (λ x. IsTrue (Live x)) star L N → Laws k N }
    ensures rows { (k : Kind) (i : ℕ) (rows : Rows) (keys : List ℕ) (made : ℕ) (star : ℕ → ℕ) (L N : Links)
        → inverse k i ≡ i → Laws k L → IsCounted made (IsLive rows)
        → LeadsToLive (IsLive rows) L
        → IsNumbered (IsOpen (IsLive rows) i L) keys made star
        → IsClosed k i (IsLive rows) star L N → Laws k N }
{}

/// After closing at a link no live dart is free there, where tests tell the live darts and where rows tell them.
///
/// For whoever closes a map because a later step, as the dual, asks for a map without a boundary.
pub fn closing_leaves_no_free_dart()
    ensures told { (k : Kind) (i : ℕ) (Live LiveAfter : ℕ → Bool) (keys : List ℕ) (made : ℕ) (star : ℕ → ℕ)
        (L N : Links) → inverse k i ≡ i → Laws k L → IsCounted made (λ x. IsTrue (Live x))
        → LeadsToLive (λ x. IsTrue (Live x)) L
        → IsNumbered (IsOpen (λ x. IsTrue (Live x)) i L) keys made star
        → IsClosed k i (λ x. IsTrue (Live x)) star L N
        → AreBorn made (length keys) (λ x. IsTrue (Live x)) (λ x. IsTrue (LiveAfter x)) → (x : ℕ)
        → IsTrue (LiveAfter x) → N i x ≢ 0 }
    ensures rows { (k : Kind) (i : ℕ) (rows after : Rows) (keys : List ℕ) (made : ℕ) (star : ℕ → ℕ)
        (L N : Links) → inverse k i ≡ i → Laws k L → IsCounted made (IsLive rows)
        → LeadsToLive (IsLive rows) L
        → IsNumbered (IsOpen (IsLive rows) i L) keys made star
        → IsClosed k i (IsLive rows) star L N
        → AreBorn made (length keys) (IsLive rows) (IsLive after) → (x : ℕ)
        → IsLive after x → N i x ≢ 0 }
{}

/// Where no live dart was free below a link, after closing at it none is free up to it. Tests or rows tell the live darts.
///
/// For whoever closes a map link by link, upwards: closing at one link opens no link below it.
pub fn closing_upwards_closes_all()
    ensures told { (k : Kind) (i : ℕ) (Live LiveAfter : ℕ → Bool) (keys : List ℕ) (made : ℕ) (star : ℕ → ℕ)
        (L N : Links) → inverse k i ≡ i → Laws k L → IsCounted made (λ x. IsTrue (Live x))
        → LeadsToLive (λ x. IsTrue (Live x)) L
        → IsNumbered (IsOpen (λ x. IsTrue (Live x)) i L) keys made star
        → IsClosed k i (λ x. IsTrue (Live x)) star L N
        → AreBorn made (length keys) (λ x. IsTrue (Live x)) (λ x. IsTrue (LiveAfter x)) →
        ((t x : ℕ) → IsTrue (Live x) → t < i → L t x ≢ 0) → (t x : ℕ) → IsTrue (LiveAfter x) → t ≤ i
        → N t x ≢ 0 }
    ensures rows { (k : Kind) (i : ℕ) (rows after : Rows) (keys : List ℕ) (made : ℕ) (star : ℕ → ℕ)
        (L N : Links) → inverse k i ≡ i → Laws k L → IsCounted made (IsLive rows)
        → LeadsToLive (IsLive rows) L
        → IsNumbered (IsOpen (IsLive rows) i L) keys made star
        → IsClosed k i (IsLive rows) star L N
        → AreBorn made (length keys) (IsLive rows) (IsLive after) →
        ((t x : ℕ) → IsLive rows x → t < i → L t x ≢ 0) → (t x : ℕ) → IsLive after x → t ≤ i
        → N t x ≢ 0 }
{}
