//! Laws of the oriented half and of the double: both keep the laws of a map, the half has the cells of its map, and the
//! double of a combinatorial map without free links is oriented and has that map as its half. Signs or a fault, halves and
//! doubles exist, and each is one.
//!
//! Each law is a function with no parameters and an empty body: what it ensures is the law, for every dimension. A proof
//! uses it by a call. The lemmas behind them are in `proofs/`, for other crates to build on.
#![tactic(auto)]

ghost use Rattle.std.specs.Prelude.{◌≡◌, ◌↔◌, ◌⊎◌, ◌≤◌, ◌+◌, ℕ, List, length, Bool, IsTrue};
ghost use Rattle.map_defs.specs.Kind.{alpha, beta};
ghost use Rattle.map_defs.specs.Links.{Links, LeadsToLive, HasDimension};
ghost use Rattle.map_defs.specs.Laws.{Laws};
ghost use Rattle.map_defs.specs.Cells.{InCell};
ghost use Rattle.map_defs.specs.Rows.{Rows, IsLive, links_of};
ghost use Rattle.half_defs.specs.Orientation.{Sign, IsPositive, AreSigns, HasBoundary, OrientFault, Boundary, Folded, Odd, HasFault, IsOriented};
ghost use Rattle.half_defs.specs.Halves.{AreOrigins, IsHalf, IsDouble, HasDarts, origin, odd_dart};

/// The half of an oriented generalized map is lawful: its links are those of a combinatorial map.
///
/// For whoever makes the half: that its links run along the map's is all that he owes. What links the map has above its
/// dimension does not matter.
pub fn half_keeps_the_laws()
    ensures { (n : ℕ) (rows : Rows) (L N : Links) (signs : List Sign) (origins : List ℕ) → Laws alpha L
        → LeadsToLive (IsLive rows) L → IsOriented n (IsLive rows) L signs → AreOrigins (IsPositive signs) origins
        → IsHalf n L origins N → Laws beta N }
{}

/// The half has the cells of its map: by the origins of its darts, a cell of the half is the set of the positive darts of a
/// cell of the map, of the same dimension.
///
/// For a reader of the half: what it tells of vertices, edges, faces and volumes it tells of the map. A cell of a dimension
/// above the map's is a component, and the half has those too.
pub fn half_has_the_cells()
    ensures { (n : ℕ) (rows : Rows) (L N : Links) (signs : List Sign) (origins : List ℕ) → Laws alpha L
        → LeadsToLive (IsLive rows) L → HasDimension n L → IsOriented n (IsLive rows) L signs
        → AreOrigins (IsPositive signs) origins → IsHalf n L origins N
        → (i r q : ℕ) → 1 ≤ r → r ≤ length origins
        → InCell beta N i r q ↔ ((1 ≤ q) × (q ≤ length origins) × InCell alpha L i (origin origins r) (origin origins q)) }
{}

/// What is said of origins, signs, faults and the half holds of one alone. There is one list of the origins with a property.
/// A map has one list of signs, and then no fault. Its fault is one too, but for the links of an odd walk. And the links of
/// the half are one.
///
/// For whoever compares two answers: each tells all that there is to tell.
pub fn half_is_one()
    ensures origins { (signs : List Sign) (a b : List ℕ) → AreOrigins (IsPositive signs) a
        → AreOrigins (IsPositive signs) b → a ≡ b }
    ensures signs { (n : ℕ) (rows : Rows) (L : Links) (s t : List Sign) → LeadsToLive (IsLive rows) L → HasDimension n L
        → IsOriented n (IsLive rows) L s → IsOriented n (IsLive rows) L t → s ≡ t }
    ensures no_fault { (n : ℕ) (rows : Rows) (L : Links) (signs : List Sign) (fault : OrientFault) → Laws alpha L
        → LeadsToLive (IsLive rows) L → IsOriented n (IsLive rows) L signs → HasFault n (IsLive rows) L fault → ⊥ }
    ensures boundary { (n : ℕ) (rows : Rows) (L : Links) (fault : OrientFault) → HasFault n (IsLive rows) L Boundary
        → HasFault n (IsLive rows) L fault → fault ≡ Boundary }
    ensures fold { (n d i : ℕ) (rows : Rows) (L : Links) (fault : OrientFault)
        → HasFault n (IsLive rows) L (Folded d i) → HasFault n (IsLive rows) L fault → fault ≡ Folded d i }
    ensures odd { (n d : ℕ) (links : List ℕ) (rows : Rows) (L : Links) (fault : OrientFault)
        → HasFault n (IsLive rows) L (Odd d links) → HasFault n (IsLive rows) L fault
        → (others : List ℕ) × (fault ≡ Odd d others) }
    ensures links { (n : ℕ) (rows : Rows) (L N M : Links) (signs : List Sign) (origins : List ℕ) → Laws alpha L
        → LeadsToLive (IsLive rows) L → IsOriented n (IsLive rows) L signs → AreOrigins (IsPositive signs) origins
        → IsHalf n L origins N → IsHalf n L origins M → (i r : ℕ) → N i r ≡ M i r }
{}

/// The double of a combinatorial map keeps the laws of a generalized map, where a test tells the live darts and where rows
/// tell them.
///
/// For whoever makes the double: it has no condition. A map with free links has a double too.
pub fn double_keeps_the_laws()
    ensures told { (n : ℕ) (Live : ℕ → Bool) (origins : List ℕ) (L N : Links) → Laws beta L
        → LeadsToLive (λ x. IsTrue (Live x)) L → HasDimension n L → (IsTrue (Live 0) → ⊥)
        → AreOrigins (λ x. IsTrue (Live x)) origins → IsDouble n L origins N → Laws alpha N }
    ensures rows { (n : ℕ) (rows : Rows) (origins : List ℕ) (L N : Links) → Laws beta L
        → LeadsToLive (IsLive rows) L → HasDimension n L → (IsLive rows 0 → ⊥)
        → AreOrigins (IsLive rows) origins → IsDouble n L origins N → Laws alpha N }
{}

/// The double is one: two doubles of the same map have the same dart at each link of each dart. Nothing is taken of the laws.
///
/// For a reader of what a double is: it leaves no choice.
pub fn double_is_one()
    ensures told { (n : ℕ) (Live : ℕ → Bool) (origins : List ℕ) (L N O : Links)
        → LeadsToLive (λ x. IsTrue (Live x)) L → AreOrigins (λ x. IsTrue (Live x)) origins
        → IsDouble n L origins N → IsDouble n L origins O → (i d : ℕ) → N i d ≡ O i d }
    ensures rows { (n : ℕ) (rows : Rows) (origins : List ℕ) (L N O : Links)
        → LeadsToLive (IsLive rows) L → AreOrigins (IsLive rows) origins
        → IsDouble n L origins N → IsDouble n L origins O → (i d : ℕ) → N i d ≡ O i d }
{}

/// The double of a combinatorial map without free links is oriented: it has no boundary and no folds, and its darts, two for
/// each dart of the map, have signs. The positive darts are the odd ones of the ranks.
///
/// For whoever makes the double of a closed map: a half of it can be made.
pub fn double_is_oriented()
    ensures told { (n : ℕ) (Live : ℕ → Bool) (origins : List ℕ) (L N : Links) → 2 ≤ n → Laws beta L
        → LeadsToLive (λ x. IsTrue (Live x)) L → HasDimension n L → (IsTrue (Live 0) → ⊥)
        → (HasBoundary n (λ x. IsTrue (Live x)) L → ⊥)
        → AreOrigins (λ x. IsTrue (Live x)) origins → IsDouble n L origins N
        → (signs : List Sign) × IsOriented n (λ d. (1 ≤ d) × (d ≤ length origins + length origins)) N signs
        × ((d : ℕ) → IsPositive signs d ↔ ((r : ℕ) × (1 ≤ r) × (r ≤ length origins) × (d ≡ odd_dart r))) }
    ensures rows { (n : ℕ) (rows : Rows) (origins : List ℕ) (L N : Links) → 2 ≤ n → Laws beta L
        → LeadsToLive (IsLive rows) L → HasDimension n L → (IsLive rows 0 → ⊥)
        → (HasBoundary n (IsLive rows) L → ⊥)
        → AreOrigins (IsLive rows) origins → IsDouble n L origins N
        → (signs : List Sign) × IsOriented n (λ d. (1 ≤ d) × (d ≤ length origins + length origins)) N signs
        × ((d : ℕ) → IsPositive signs d ↔ ((r : ℕ) × (1 ≤ r) × (r ≤ length origins) × (d ≡ odd_dart r))) }
{}

/// The half of the double of a combinatorial map is that map: its darts are the ranks of the map's darts, and each link of a
/// rank leads to the rank of the dart to which the map's link leads. So it is for link 0 too, and where links are free.
///
/// For whoever goes from one kind to the other and back: nothing is lost but the numbers.
pub fn half_of_the_double()
    ensures told { (n : ℕ) (Live : ℕ → Bool) (origins odd_darts : List ℕ) (L N H : Links) → Laws beta L
        → LeadsToLive (λ x. IsTrue (Live x)) L → HasDimension n L → (IsTrue (Live 0) → ⊥)
        → AreOrigins (λ x. IsTrue (Live x)) origins → IsDouble n L origins N
        → AreOrigins (λ d. (r : ℕ) × (1 ≤ r) × (r ≤ length origins) × (d ≡ odd_dart r)) odd_darts
        → IsHalf n N odd_darts H → (length odd_darts ≡ length origins)
        × ((i r : ℕ) → origin origins (H i r) ≡ L i (origin origins r)) }
    ensures rows { (n : ℕ) (rows : Rows) (origins odd_darts : List ℕ) (L N H : Links) → Laws beta L
        → LeadsToLive (IsLive rows) L → HasDimension n L → (IsLive rows 0 → ⊥)
        → AreOrigins (IsLive rows) origins → IsDouble n L origins N
        → AreOrigins (λ d. (r : ℕ) × (1 ≤ r) × (r ≤ length origins) × (d ≡ odd_dart r)) odd_darts
        → IsHalf n N odd_darts H → (length odd_darts ≡ length origins)
        × ((i r : ℕ) → origin origins (H i r) ≡ L i (origin origins r)) }
{}

/// A generalized map has signs or a fault. Its live darts are told by a test up to a bound, or by rows.
///
/// For whoever asks for a half: the question always has an answer, and none of the laws of the half holds only because signs
/// are wanting.
pub fn there_are_signs_or_a_fault()
    ensures told { (n made : ℕ) (Live : ℕ → Bool) (L : Links) → Laws alpha L → LeadsToLive (λ x. IsTrue (Live x)) L
        → HasDimension n L → (IsTrue (Live 0) → ⊥) → ((d : ℕ) → IsTrue (Live d) → d ≤ made)
        → ((signs : List Sign) × IsOriented n (λ x. IsTrue (Live x)) L signs)
        ⊎ ((fault : OrientFault) × HasFault n (λ x. IsTrue (Live x)) L fault) }
    ensures rows { (n : ℕ) (rows : Rows) (L : Links) → Laws alpha L → LeadsToLive (IsLive rows) L
        → HasDimension n L → (IsLive rows 0 → ⊥)
        → ((signs : List Sign) × IsOriented n (IsLive rows) L signs)
        ⊎ ((fault : OrientFault) × HasFault n (IsLive rows) L fault) }
{}

/// A generalized map whose darts have signs has a half: the positive darts make a list, and there are rows of so many darts
/// whose links are those of the half.
///
/// For whoever makes the half: what is asked of it can be had, its link 0 too.
pub fn there_is_a_half()
    ensures told { (n : ℕ) (Live : ℕ → Bool) (L : Links) (signs : List Sign) → Laws alpha L
        → LeadsToLive (λ x. IsTrue (Live x)) L → HasDimension n L → (IsTrue (Live 0) → ⊥)
        → AreSigns n (λ x. IsTrue (Live x)) L signs → (origins : List ℕ) × (half : Rows)
        × AreOrigins (IsPositive signs) origins × HasDarts n (length origins) half
        × IsHalf n L origins (links_of half) }
    ensures rows { (n : ℕ) (rows : Rows) (L : Links) (signs : List Sign) → Laws alpha L
        → LeadsToLive (IsLive rows) L → HasDimension n L → (IsLive rows 0 → ⊥)
        → AreSigns n (IsLive rows) L signs → (origins : List ℕ) × (half : Rows)
        × AreOrigins (IsPositive signs) origins × HasDarts n (length origins) half
        × IsHalf n L origins (links_of half) }
{}

/// A combinatorial map has a double: its live darts make a list, and there are rows of twice as many darts whose links are
/// those of the double. Its darts are told by a test up to a bound, or by rows.
///
/// For whoever makes the double: what is asked of it can be had.
pub fn there_is_a_double()
    ensures told { (n made : ℕ) (Live : ℕ → Bool) (L : Links) → Laws beta L → LeadsToLive (λ x. IsTrue (Live x)) L
        → HasDimension n L → (IsTrue (Live 0) → ⊥) → ((d : ℕ) → IsTrue (Live d) → d ≤ made)
        → (origins : List ℕ) × (double : Rows) × AreOrigins (λ x. IsTrue (Live x)) origins
        × HasDarts n (length origins + length origins) double × IsDouble n L origins (links_of double) }
    ensures rows { (n : ℕ) (rows : Rows) (L : Links) → Laws beta L → LeadsToLive (IsLive rows) L
        → HasDimension n L → (IsLive rows 0 → ⊥) → (origins : List ℕ) × (double : Rows)
        × AreOrigins (IsLive rows) origins × HasDarts n (length origins + length origins) double
        × IsDouble n L origins (links_of double) }
{}
