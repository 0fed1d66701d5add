ghost use Rattle.std.specs.Prelude.{◌≡◌, ℕ, pos, ◌+◌, ◌-◌, ◌^◌, ◌≤◌, ◌<◌, [], ◌∷◌, None, Some, IsOk, OnOk, OnErr};
ghost use Rattle.map_defs.specs.Values.{IsRepresentable};
ghost use Rattle.store_defs.specs.Stores.{value_of, IsHeld, live_count, IsPut, HasRepresentable};

use crate::id::AttrId;
use map_kind::Value;
use std::alloc::{AllocError, Global};
use std::marker::Model;

/// Values under ids. A live id stands for one value. It costs 25 bytes for each id that there is room for, and
/// room grows as that of a `Vec` does.
#[derive(Drop)]
pub struct Pool {
    // The value of the id n is at place n - 1. At a place that is not live, `a` is the next such place: so the free
    // places take no memory of their own, and none is reserved for those that are live.
    values: Vec<Value>,
    // Which places are live. They stand apart, since an Option<Value> takes 32 bytes.
    lives: Vec<bool>,
    // The place that came free last; of no meaning where all places are live.
    free: u32,
    live: u32,
    // So many ids can live without further memory.
    room: u32,
}

impl Model for Pool {
    ghost use Rattle.std.specs.Prelude.{◌∷◌, ◌-◌, None};
    ghost use Rattle.store_defs.specs.Stores.{Store};

    ghost Value = { Store };

    ghost use Rattle.attr_pool.specs.Pools.{IsPool, slots_of};

    ghost view = { λ pool. record { slots = None ∷ slots_of pool.values.items pool.lives.items; spare = pool.room - pool.live } };

    ghost invariant = { IsPool };
}

impl Pool {
    /// The pool without ids. It takes no memory.
    pub fn new(alloc: Global) -> Self
        ensures values { (id : ℕ) → value_of result id ≡ None }
        ensures count { live_count result ≡ 0 }
        ensures spare { result.spare ≡ 0 }
    {
        Pool {
            values: Vec::new(alloc),
            lives: Vec::new(alloc),
            free: 0,
            live: 0,
            room: 0,
        }
    }

    /// How many ids are live. Each stands for a value of 64 bits.
    pub fn live_count(&self) -> u32
        ensures count { result ≡ live_count self.now }
        ensures held { HasRepresentable self.now }
    {
        self.live
    }

    /// Makes room for so many further ids. A refusal leaves the pool as it was.
    pub fn reserve(&mut self, ids: u32) -> Result<(), AllocError>
        requires { live_count self.old + ids < 2 ^ 32 }
        ensures slots { self.new.slots ≡ self.old.slots }

        // Success leaves that room, and room once there stays.
        ensures spare { OnOk result (ids ≤ self.new.spare) }
        ensures spare_stays { self.old.spare ≤ self.new.spare }

        // It fails only where room was missing.
        ensures had_room { ids ≤ self.old.spare → IsOk result }
        ensures err { OnErr result (self.new ≡ self.old) }

        // What ids stand for are values of 64 bits.
        ensures held { HasRepresentable self.old }
    {
        let wanted = self.live + ids;
        if wanted <= self.room {
            return Ok(());
        }
        let further = wanted as usize - self.values.len();
        self.values.reserve(further)?;
        self.lives.reserve(further)?;
        self.room = wanted;
        Ok(())
    }

    /// Makes an id that stands for a value. It is none of the live ids. It takes no memory: room was reserved.
    pub fn make(&mut self, value: Value) -> AttrId
        requires { 1 ≤ self.old.spare }
        ensures fresh { value_of self.old result ≡ None }
        ensures made { IsPut self.old self.new result (Some value) }
        ensures count { live_count self.new ≡ live_count self.old + 1 }
        ensures spare { self.new.spare + 1 ≡ self.old.spare }
    {
        if (self.live as usize) < self.values.len() {
            let place = self.free;
            self.free = next_place(self.values[place as usize]);
            self.values[place as usize] = value;
            self.lives[place as usize] = true;
            self.live += 1;
            return AttrId::new(place + 1).unwrap();
        }
        self.values.push_reserved(value);
        self.lives.push_reserved(true);
        self.live += 1;
        AttrId::new(self.values.len() as u32).unwrap()
    }

    /// The value that an id stands for; none exactly where the id is not live.
    pub fn value(&self, id: AttrId) -> Option<Value>
        ensures { result ≡ value_of self.now id }
    {
        let place = place(id) as usize;
        if *self.lives.get(place)? {
            return Some(self.values[place]);
        }
        None
    }

    /// Lets a live id stand for another value, and answers the one before. It takes no memory.
    pub fn replace(&mut self, id: AttrId, value: Value) -> Value
        requires { IsHeld self.old id }
        ensures before { value_of self.old id ≡ Some result }
        ensures replaced { IsPut self.old self.new id (Some value) }
        ensures count { live_count self.new ≡ live_count self.old }
        ensures spare { self.new.spare ≡ self.old.spare }
    {
        let place = place(id) as usize;
        let before = self.values[place];
        self.values[place] = value;
        before
    }

    /// Ends a live id, which can then be given again, and answers its value. It takes no memory.
    pub fn release(&mut self, id: AttrId) -> Value
        requires { IsHeld self.old id }
        ensures before { value_of self.old id ≡ Some result }
        ensures released { IsPut self.old self.new id None }
        ensures count { live_count self.new + 1 ≡ live_count self.old }
        ensures spare { self.new.spare ≡ self.old.spare + 1 }
    {
        let place = place(id);
        let value = self.values[place as usize];
        self.values[place as usize] = free_value(self.free);
        self.lives[place as usize] = false;
        self.free = place;
        self.live -= 1;
        value
    }
}

/// Where the value of an id is kept.
fn place(id: AttrId) -> u32
    ensures { result + 1 ≡ id }
{
    id.number() - 1
}

/// What is written at a free place: the place that follows it.
fn free_value(next: u32) -> Value
    ensures next { result.a ≡ pos next }
    ensures held { IsRepresentable result }
{
    Value {
        a: i64::from(next),
        b: 0,
        c: 0,
    }
}

/// The place that is written at a free place.
fn next_place(value: Value) -> u32
    requires { (next : ℕ) × (value.a ≡ pos next) × (next < 2 ^ 32) }
    ensures { value.a ≡ pos result }
{
    value.a as u32
}
