ghost use Rattle.std.specs.Prelude.{◌≡◌, ◌≢◌, ℕ, ◌+◌, ◌≤◌, length, reverse, slice_index, slice_set};
ghost use Rattle.map_defs.specs.Edits.{free_row};
ghost use Rattle.dart_arena.specs.RowChanges.{with_link, with_links};

use std::marker::Model;

/// The entries of a dart, from 0 to `DIM`. It is seen as their list.
#[derive(Drop)]
pub struct Row<const DIM: usize> {
    zeroth: u32,
    // Entry i stands at place i - 1.
    others: [u32; DIM],
}

impl<const DIM: usize> Model for Row<DIM> {
    ghost use Rattle.std.specs.Prelude.{ℕ, ◌≡◌, List, ◌∷◌, length};

    ghost Value = { List ℕ };

    ghost view = { λ row. row.zeroth ∷ row.others };

    ghost invariant = { λ row. length row.others ≡ DIM };
}

impl<const DIM: usize> Row<DIM> {
    /// The row of a dart without links.
    pub fn zeros() -> Self
        ensures { result ≡ free_row DIM }
    {
        Row {
            zeroth: 0,
            others: [0; DIM],
        }
    }

    /// A row with the same entries.
    pub(crate) fn copy(&self) -> Self
        ensures { result ≡ self.now }
    {
        Row {
            zeroth: self.zeroth,
            others: self.others,
        }
    }

    /// How many entries there are.
    pub fn width(&self) -> usize
        ensures width { result ≡ DIM + 1 }
        ensures long { length self.now ≡ DIM + 1 }
    {
        self.others.as_slice().len() + 1
    }

    /// The entry at a link.
    pub fn entry(&self, link: usize) -> u32
        requires { link ≤ DIM }
        ensures { result ≡ slice_index self.now link }
    {
        if link == 0 {
            self.zeroth
        } else {
            self.others[link - 1]
        }
    }

    /// Puts an entry at a link.
    pub fn set(&mut self, link: usize, to: u32)
        requires { link ≤ DIM }
        ensures { self.new ≡ slice_set self.old link to }
    {
        if link == 0 {
            self.zeroth = to;
        } else {
            self.others[link - 1] = to;
        }
    }

    /// Puts those of these numbers that are not 0 at their links, which count from 0. So many numbers as the row is wide are
    /// put in steps whose count is known when the program is built.
    pub(crate) fn put_links(&mut self, links: &[u32])
        requires { (link : ℕ) → slice_index links.now link ≢ 0 → link ≤ DIM }
        ensures { self.new ≡ with_links 0 links.now self.old }
    {
        if links.len() != self.width() {
            self.put_each(links);
            return;
        }
        for link in 0..self.width() {
            self.put_link(link, links[link]);
        }
    }

    /// Puts those of these numbers that are not 0 at their links, which count from 0.
    fn put_each(&mut self, links: &[u32])
        requires { (link : ℕ) → slice_index links.now link ≢ 0 → link ≤ DIM }
        ensures { self.new ≡ with_links 0 links.now self.old }
    {
        for link in 0..links.len() {
            self.put_link(link, links[link]);
        }
    }

    /// Puts all entries. They stand in the order of the links, from 0 on.
    pub(crate) fn put_all(&mut self, links: &[u32])
        requires { length links.now ≡ DIM + 1 }
        ensures { self.new ≡ links.now }
    {
        for link in 0..self.width() {
            self.set(link, links[link]);
        }
    }

    /// Puts a number at a link, unless it is 0.
    fn put_link(&mut self, link: usize, to: u32)
        requires { to ≢ 0 → link ≤ DIM }
        ensures { self.new ≡ with_link link to self.old }
    {
        if to != 0 {
            self.set(link, to);
        }
    }

    /// Turns the row round: entry i becomes entry `DIM` - i.
    pub(crate) fn reverse(&mut self)
        ensures { self.new ≡ reverse self.old }
    {
        let mut turned = Row::zeros();
        for link in 0..self.width() {
            turned.set(link, self.entry(DIM - link));
        }
        *self = turned;
    }
}
