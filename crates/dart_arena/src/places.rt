ghost use Rattle.std.specs.Prelude.{◌≡◌, ◌≢◌, ◌+◌, ◌-◌, ◌^◌, ◌≤◌, ◌<◌, ◌++◌, [], ◌∷◌, true, false, cond, length, take, replicate, slice_set, vec_len, vec_capacity, IfOk, OnOk, OnErr};
ghost use Rattle.dart_arena.specs.Layout.{is_in_order, keys_of, key_at, keys_from, places_capacity};

use std::alloc::{AllocError, Global};

/// Under which key the row of each dart that was made stands. A key is one more than that of the slab, and a dart that is
/// not live has key 0.
#[derive(Drop)]
pub struct Places {
    // The row of dart d has key d, if it is live: no keys are kept.
    in_order: bool,
    // Whether dart d is live stands at place d - 1 while no keys are kept; empty from then on.
    live: Vec<bool>,
    // The key of dart d stands at place d - 1, in 32 bits, once keys are kept; empty before.
    keys: Vec<u32>,
}

impl Places {
    /// No places, in order. It takes no memory.
    pub fn new(alloc: Global) -> Self
        ensures order { is_in_order result ≡ true }
        ensures keys { keys_of result ≡ [] }
        ensures capacity { places_capacity result ≡ 0 }
    {
        Places {
            in_order: true,
            live: Vec::new(alloc),
            keys: Vec::new(alloc),
        }
    }

    /// The places that have these keys.
    pub fn keyed(keys: Vec<u32>) -> Self
        ensures order { is_in_order result ≡ false }
        ensures keys { keys_of result ≡ keys.items }
        ensures capacity { places_capacity result ≡ vec_capacity keys }
    {
        Places {
            in_order: false,
            live: Vec::new(*keys.allocator()),
            keys,
        }
    }

    /// Where the places have their memory from.
    pub fn allocator(&self) -> Global {
        *self.live.allocator()
    }

    /// Whether no keys are kept.
    pub fn is_in_order(&self) -> bool
        ensures { result ≡ is_in_order self.now }
    {
        self.in_order
    }

    /// How many places there are, one for each dart that was made.
    pub fn made(&self) -> usize
        ensures { result ≡ length (keys_of self.now) }
    {
        if self.in_order {
            self.live.len()
        } else {
            self.keys.len()
        }
    }

    /// The key at a place, 0 where no dart lives.
    pub fn key(&self, place: usize) -> usize
        ensures { result ≡ key_at (keys_of self.now) place }
    {
        if self.in_order {
            key_in_order(&self.live, place)
        } else {
            kept_key(&self.keys, place)
        }
    }

    /// The key of the row to read at a place: while no keys are kept, it is told without a look at who lives.
    pub fn key_to_read(&self, place: usize) -> usize
        requires { place < 2 ^ 32 }
        ensures { result ≡ cond (is_in_order self.now) (place + 1) (key_at (keys_of self.now) place) }
    {
        if self.in_order {
            place + 1
        } else {
            kept_key(&self.keys, place)
        }
    }

    /// The key at a place where a dart lives.
    pub fn live_key(&self, place: usize) -> usize
        requires within { place < 2 ^ 32 }
        requires lives { key_at (keys_of self.now) place ≢ 0 }
        ensures { result ≡ key_at (keys_of self.now) place }
    {
        if self.in_order {
            place + 1
        } else {
            self.keys[place] as usize
        }
    }

    /// Makes room for so many more places.
    pub fn reserve(&mut self, births: usize) -> Result<(), AllocError>
        ensures order { is_in_order self.new ≡ is_in_order self.old }
        ensures keys { keys_of self.new ≡ keys_of self.old }
        ensures room { OnOk result (length (keys_of self.old) + births ≤ places_capacity self.new) }
        ensures capacity { places_capacity self.old ≤ places_capacity self.new }
    {
        if self.in_order {
            self.live.reserve(births)
        } else {
            self.keys.reserve(births)
        }
    }

    /// Keeps the keys from now on, with room for so many more places. An error leaves the places as they were.
    pub fn keep_keys(&mut self, births: usize) -> Result<(), AllocError>
        requires order { is_in_order self.old ≡ true }
        requires few { length (keys_of self.old) + births < 2 ^ 32 }
        ensures order { OnOk result (is_in_order self.new ≡ false) }
        ensures keys { OnOk result (keys_of self.new ≡ keys_of self.old) }
        ensures room { OnOk result (length (keys_of self.old) + births ≤ places_capacity self.new) }
        ensures err { OnErr result (self.new ≡ self.old) }
    {
        let keys = copy_keys(self, births)?;
        *self = Places::keyed(keys);
        Ok(())
    }

    /// Appends a place with a key. It takes no memory: room for it was reserved.
    pub fn push(&mut self, key: usize)
        requires room { length (keys_of self.old) + 1 ≤ places_capacity self.old }
        requires order { is_in_order self.old ≡ true → key ≡ length (keys_of self.old) + 1 }
        requires narrow { key < 2 ^ 32 }
        ensures order { is_in_order self.new ≡ is_in_order self.old }
        ensures keys { keys_of self.new ≡ keys_of self.old ++ key ∷ [] }
        ensures capacity { places_capacity self.new ≡ places_capacity self.old }
    {
        if self.in_order {
            self.live.push_reserved(true);
        } else {
            self.keys.push_reserved(key as u32);
        }
    }

    /// Appends places for so many darts that live, while no keys are kept. It takes no memory: room for them was reserved.
    pub fn push_in_order(&mut self, births: usize)
        requires order { is_in_order self.old ≡ true }
        requires room { length (keys_of self.old) + births ≤ places_capacity self.old }
        ensures order { is_in_order self.new ≡ true }
        ensures keys { keys_of self.new ≡ keys_from 0 (self.old.live.items ++ replicate births true) }
        ensures capacity { places_capacity self.new ≡ places_capacity self.old }
    {
        for _birth in 0..births {
            self.live.push_reserved(true);
        }
    }

    /// Takes the last place away.
    pub fn pop(&mut self)
        requires { 0 < length (keys_of self.old) }
        ensures order { is_in_order self.new ≡ is_in_order self.old }
        ensures keys { keys_of self.new ≡ take (length (keys_of self.old) - 1) (keys_of self.old) }
        ensures capacity { places_capacity self.new ≡ places_capacity self.old }
    {
        if self.in_order {
            self.live.truncate(self.live.len() - 1);
        } else {
            self.keys.truncate(self.keys.len() - 1);
        }
    }

    /// Tells of a place that no dart lives there.
    pub fn clear(&mut self, place: usize)
        requires { place < length (keys_of self.old) }
        ensures order { is_in_order self.new ≡ is_in_order self.old }
        ensures keys { keys_of self.new ≡ slice_set (keys_of self.old) place 0 }
        ensures capacity { places_capacity self.new ≡ places_capacity self.old }
    {
        if self.in_order {
            self.live[place] = false;
        } else {
            self.keys[place] = 0;
        }
    }

    /// Tells of a place that a dart lives there, with a key.
    pub fn fill(&mut self, place: usize, key: usize)
        requires place { place < length (keys_of self.old) }
        requires order { is_in_order self.old ≡ true → key ≡ place + 1 }
        requires narrow { key < 2 ^ 32 }
        ensures order { is_in_order self.new ≡ is_in_order self.old }
        ensures keys { keys_of self.new ≡ slice_set (keys_of self.old) place key }
        ensures capacity { places_capacity self.new ≡ places_capacity self.old }
    {
        if self.in_order {
            self.live[place] = true;
        } else {
            self.keys[place] = key as u32;
        }
    }
}

/// The key at a place while no keys are kept.
fn key_in_order(live: &Vec<bool>, place: usize) -> usize
    ensures { result ≡ key_at (keys_from 0 live.now.items) place }
{
    if place < live.len() && live[place] {
        place + 1
    } else {
        0
    }
}

/// The key that is kept at a place, 0 past the last.
fn kept_key(keys: &Vec<u32>, place: usize) -> usize
    ensures { result ≡ key_at keys.now.items place }
{
    if place < keys.len() {
        keys[place] as usize
    } else {
        0
    }
}

/// The keys of all places, with room for so many more.
fn copy_keys(places: &Places, births: usize) -> Result<Vec<u32>, AllocError>
    requires order { is_in_order places.now ≡ true }
    requires few { length (keys_of places.now) + births < 2 ^ 32 }
    ensures keys { IfOk result (λ keys. keys.items ≡ keys_of places.now) }
    ensures room { IfOk result (λ keys. length (keys_of places.now) + births ≤ vec_capacity keys) }
{
    let mut keys = Vec::with_capacity(places.allocator(), places.made() + births)?;
    for place in 0..places.made() {
        keys.push_reserved(places.key(place) as u32);
    }
    Ok(keys)
}
