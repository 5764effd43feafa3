//! Keys that are marked, by the numbers of their last use.
ghost use Rattle.std.specs.Prelude.{◌≡◌, ◌≢◌, ◌+◌, ◌<◌, ◌≤◌, ℕ, true, [], length, None, Some, IsNone, IfSome, OnOk};
ghost use Rattle.std.specs.Option.{is_some};
ghost use Rattle.qcow2_alloc.specs.Uses.{number_at, count_below, IsLastBelow};

use std::alloc::{AllocError, Global};
use std::marker::Model;

/// Keys, each under a number, in rising order of the numbers. Inserting a key for which there is room needs no memory.
#[derive(Drop)]
pub(crate) struct Marks<K: Copy> {
    marks: Vec<(u64, K)>,
}

impl<K: Copy> Model for Marks<K> {
    ghost use Rattle.std.specs.Prelude.{vec_capacity};
    ghost use Rattle.qcow2_alloc.specs.Uses.{Marked, Rise};

    ghost Value = { Marked K };

    ghost view = { λ a. record { entries = a.marks.items; room = vec_capacity a.marks } };

    ghost invariant = { λ a. Rise 0 a.marks.items };
}

impl<K: Copy> Marks<K> {
    // An empty set without room.
    pub(crate) fn new(alloc: Global) -> Self
        ensures { result.entries ≡ [] }
    {
        Marks {
            marks: Vec::new(alloc),
        }
    }

    // Makes room for this many keys in all. Refused if memory runs out.
    pub(crate) fn make_room(&mut self, count: usize) -> Result<(), AllocError>
        ensures entries { self.new.entries ≡ self.old.entries }
        ensures room { OnOk result (count ≤ self.new.room) }
        ensures grows { self.old.room ≤ self.new.room }
    {
        let missing = count.saturating_sub(self.marks.len());
        self.marks.reserve(missing)
    }

    // How many keys have a lower number.
    fn count_below(&self, number: u64) -> usize
        ensures count { result ≡ count_below number self.now.entries }
        ensures none { result ≡ 0 → (n : ℕ) → n < number → number_at self.now.entries n ≡ None }
    {
        self.marks.partition_point(|mark| mark.0 < number)
    }

    // Whether a key is under a number.
    pub(crate) fn contains(&self, number: u64) -> bool
        ensures { result ≡ is_some (number_at self.now.entries number) }
    {
        let at = self.count_below(number);
        match self.marks.get(at) {
            Some((found, _)) => *found == number,
            None => false,
        }
    }

    // Inserts a key under a number that has none.
    pub(crate) fn put(&mut self, number: u64, key: K)
        requires fits { length self.old.entries < self.old.room }
        requires new { number_at self.old.entries number ≡ None }
        ensures number { number_at self.new.entries number ≡ Some key }
        ensures others { (n : ℕ) → n ≢ number → number_at self.new.entries n ≡ number_at self.old.entries n }
        ensures count { length self.new.entries ≡ length self.old.entries + 1 }
        ensures room { self.new.room ≡ self.old.room }
    {
        let at = self.count_below(number);
        let _room_was_made = self.marks.insert(at, (number, key));
    }

    // Removes the key under a number that has one.
    pub(crate) fn take(&mut self, number: u64)
        requires { is_some (number_at self.old.entries number) ≡ true }
        ensures number { number_at self.new.entries number ≡ None }
        ensures others { (n : ℕ) → n ≢ number → number_at self.new.entries n ≡ number_at self.old.entries n }
        ensures count { length self.new.entries + 1 ≡ length self.old.entries }
        ensures room { self.new.room ≡ self.old.room }
    {
        let at = self.count_below(number);
        self.marks.remove(at);
    }

    // The key under the greatest number below a bound.
    pub(crate) fn below(&self, bound: u64) -> Option<K>
        ensures found { IfSome result (IsLastBelow (number_at self.now.entries) bound) }
        ensures none { IsNone result → (n : ℕ) → n < bound → number_at self.now.entries n ≡ None }
    {
        let count = self.count_below(bound);
        if count == 0 {
            return None;
        }
        match self.marks.get(count - 1) {
            Some((_, key)) => Some(*key),
            None => None,
        }
    }
}
