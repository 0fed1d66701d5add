//! The search of a component, which gives its darts their signs.
ghost use Rattle.std.specs.Prelude.{◌≡◌, ℕ, ◌+◌, ◌≤◌, ◌<◌, [], ◌∷◌, ◌++◌, Some, None, true, not, length, replicate, slice_set, Contains, MatchBool, MatchOption, IfOk, OnOk};
ghost use Rattle.map_defs.specs.Rows.{links_of, IsLive};
ghost use Rattle.half_defs.specs.Orientation.{HasBoundary};
ghost use Rattle.orient_half.specs.Marks.{mark_at, sign_at, Flips, Clashes, AreHeld, AreQueued};
ghost use Rattle.orient_half.specs.Searches.{IsGiven, IsGrown, IsSurveyed, MeetsClash};

use link_rows::Links;
use map_kind::{Alpha, Dart};
use std::alloc::{AllocError, Global};

/// How the search reached a dart.
#[derive(Clone, Copy, Debug, PartialEq, Eq)]
pub(crate) struct Reached {
    pub(crate) positive: bool,
    /// The link that leads back to the dart from which this one was reached. The first dart of a component has none.
    pub(crate) link: u8,
}

/// What the search knows of the darts of a map.
#[derive(Drop)]
pub(crate) struct Search {
    /// At each dart's number, how it was reached.
    pub(crate) marks: Vec<Option<Reached>>,
    /// The darts of the component that were reached, in their order.
    pub(crate) queue: Vec<Dart>,
}

impl Search {
    /// No dart of a map with so many darts is reached yet.
    pub(crate) fn new(alloc: Global, made: u32) -> Result<Self, AllocError>
        ensures { IfOk result (λ search. search.marks.items ≡ replicate (made + 1) None) }
    {
        Ok(Search {
            marks: vec![in alloc; None; made as usize + 1]?,
            queue: Vec::with_capacity(alloc, made as usize)?,
        })
    }

    /// How a dart was reached, if it was.
    pub(crate) fn mark(&self, dart: Dart) -> Option<Reached>
        requires { dart < length self.now.marks.items }
        ensures { result ≡ mark_at self.now.marks.items dart }
    {
        self.marks[dart.number() as usize]
    }

    /// The same of any dart: one that has no place among the marks was not reached.
    pub(crate) fn mark_if_any(&self, dart: Dart) -> Option<Reached>
        ensures { result ≡ mark_at self.now.marks.items dart }
    {
        let place = dart.number() as usize;
        if place < self.marks.len() {
            self.marks[place]
        } else {
            None
        }
    }

    /// Reaches a dart. It stands behind the others of the component.
    fn put(&mut self, dart: Dart, positive: bool, link: usize) -> Result<(), AllocError>
        requires room { dart < length self.old.marks.items }
        requires link { link ≤ 8 }
        ensures marks { OnOk result (self.new.marks.items ≡ slice_set self.old.marks.items dart (Some (record { positive = positive; link = link }))) }
        ensures queue { OnOk result (self.new.queue.items ≡ self.old.queue.items ++ dart ∷ []) }
    {
        self.queue.push(dart)?;
        self.marks[dart.number() as usize] = Some(Reached {
            positive,
            link: link as u8,
        });
        Ok(())
    }

    /// Gives a dart to which a link leads this sign, unless it has one. The answer is whether it has this sign then.
    fn give(&mut self, dart: Dart, positive: bool, link: usize) -> Result<bool, AllocError>
        requires room { dart < length self.old.marks.items }
        requires link { link ≤ 8 }
        ensures given { OnOk result (IsGiven self.old.marks.items self.new.marks.items self.old.queue.items self.new.queue.items
            dart (record { positive = positive; link = link }) (mark_at self.old.marks.items dart)) }
        ensures sign { IfOk result (λ same. MatchBool same
            (sign_at self.new.marks.items dart ≡ Some positive)
            (sign_at self.new.marks.items dart ≡ Some (not positive))) }
    {
        match self.mark(dart) {
            Some(reached) => Ok(reached.positive == positive),
            None => {
                self.put(dart, positive, link)?;
                Ok(true)
            }
        }
    }

    /// Begins with the first dart of a component, which is positive.
    fn restart(&mut self, first: Dart) -> Result<(), AllocError>
        requires { first < length self.old.marks.items }
        ensures marks { OnOk result (self.new.marks.items ≡ slice_set self.old.marks.items first (Some (record { positive = true; link = 0 }))) }
        ensures queue { OnOk result (self.new.queue.items ≡ first ∷ []) }
    {
        self.queue.clear();
        self.put(first, true, 0)
    }
}

/// A link that leads from a dart to one of the same sign.
#[derive(Clone, Copy, Debug, PartialEq, Eq)]
pub(crate) struct Clash {
    pub(crate) dart: Dart,
    pub(crate) link: usize,
}

/// Gives the darts of a component their signs, from its first dart on, and tells a link that does not flip them if there is
/// one.
pub(crate) fn spread<const DIM: usize>(
    links: &Links<Alpha, DIM>,
    first: Dart,
    search: &mut Search,
) -> Result<Option<Clash>, AllocError>
    requires closed { HasBoundary DIM (IsLive links.now.rows) (links_of links.now.rows) → ⊥ }
    requires live { IsLive links.now.rows first }
    requires fresh { mark_at search.old.marks.items first ≡ None }
    requires before { IsSurveyed DIM (IsLive links.now.rows) (links_of links.now.rows) first search.old.marks.items }
    ensures { IfOk result (λ clash. MatchOption clash
        (IsSurveyed DIM (IsLive links.now.rows) (links_of links.now.rows) (first + 1) search.new.marks.items)
        (λ clash. MeetsClash DIM (IsLive links.now.rows) (links_of links.now.rows) first search.new.marks.items clash.dart clash.link)) }
{
    links.see_sound();
    search.restart(first)?;
    let mut next = 0;
    while next < search.queue.len() {
        let dart = search.queue[next];
        if let Some(link) = visit(links, dart, search)? {
            return Ok(Some(Clash { dart, link }));
        }
        next += 1;
    }
    Ok(None)
}

/// Gives the darts to which links lead from a dart their signs, and tells a link that leads to one of the same sign if there is
/// one.
fn visit<const DIM: usize>(
    links: &Links<Alpha, DIM>,
    dart: Dart,
    search: &mut Search,
) -> Result<Option<usize>, AllocError>
    requires closed { HasBoundary DIM (IsLive links.now.rows) (links_of links.now.rows) → ⊥ }
    requires held { AreHeld DIM (IsLive links.now.rows) search.old.marks.items }
    requires queued { AreQueued search.old.marks.items search.old.queue.items }
    requires among { Contains search.old.queue.items dart }
    ensures grown { OnOk result (IsGrown DIM (IsLive links.now.rows) (links_of links.now.rows)
        search.old.marks.items search.new.marks.items search.old.queue.items search.new.queue.items) }
    ensures clash { IfOk result (λ clash. MatchOption clash
        ((i : ℕ) → i ≤ DIM → Flips (links_of links.now.rows) search.new.marks.items dart i)
        (λ link. (link ≤ DIM) × Clashes (links_of links.now.rows) search.new.marks.items dart link)) }
{
    links.see_sound();
    let positive = !search.mark(dart).unwrap().positive;
    let row = links.row(dart).unwrap();
    for link in 0..links.dimension() + 1 {
        let other = Dart::new(row.entry(link)).unwrap();
        if !search.give(other, positive, link)? {
            return Ok(Some(link));
        }
    }
    Ok(None)
}
