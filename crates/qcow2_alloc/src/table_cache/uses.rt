//! The order in which keys were last used, and which of them are marked.
ghost use Rattle.std.specs.Prelude.{◌≡◌, ◌≢◌, ◌+◌, ◌<◌, ◌^◌, ◌-◌, ℕ, Bool, true, false, List, [], length};
ghost use Rattle.std.specs.Prelude.{IfSome, IfOk, OnOk, OnErr, Some, None, cond};
ghost use Rattle.std.specs.Map.{lookup, remove_entry, set_value};
ghost use Rattle.std.specs.Option.{is_some, option_map_or};
ghost use Rattle.lru.specs.LruCache.{promoted};
ghost use Rattle.qcow2_alloc.specs.Uses.{number_at, placed, is_first, first_marked, behind, IsFoundAs};

use super::marks::Marks;
use lru::LruCache;
use std::alloc::{AllocError, Global};
use std::hash::Hash;
use std::marker::Model;

/// Keys in the order of their last use, and which of them are marked. Each key has the number of its last use, by which marked keys are found.
/// There is room for the mark of each key, so marking needs no memory.
#[derive(Drop)]
pub struct Uses<K: Copy + Eq + Hash> {
    next: u64,
    numbers: LruCache<K, u64>,
    marked: Marks<K>,
}

impl<K: Copy + Eq + Hash> Model for Uses<K> {
    ghost use Rattle.std.specs.Prelude.{List, Bool};
    ghost use Rattle.qcow2_alloc.specs.Uses.{marks_of, number_at, AreNumbered, HaveRoom};

    ghost Value = { List (K × Bool) };

    ghost view = { λ a. marks_of (number_at a.marked.entries) a.numbers.entries };

    ghost invariant = { λ a. AreNumbered K.eq a.next a.numbers.cap (number_at a.marked.entries) a.numbers.entries
        × HaveRoom a.marked a.numbers.entries };
}

// Marks a key under a number that has no mark, if it is to be marked.
fn put_mark<K: Copy>(marked: &mut Marks<K>, number: u64, key: K, is_marked: bool)
    requires fits { is_marked ≡ true → length marked.old.entries < marked.old.room }
    requires new { is_marked ≡ true → number_at marked.old.entries number ≡ None }
    ensures number { number_at marked.new.entries number
        ≡ cond is_marked (Some key) (number_at marked.old.entries number) }
    ensures others { (n : ℕ) → n ≢ number → number_at marked.new.entries n ≡ number_at marked.old.entries n }
    ensures count { length marked.new.entries ≡ length marked.old.entries + cond is_marked 1 0 }
    ensures room { marked.new.room ≡ marked.old.room }
{
    if is_marked {
        marked.put(number, key);
    }
}

// Removes the mark under a number, if there is one.
fn take_mark<K: Copy>(marked: &mut Marks<K>, number: Option<u64>)
    ensures number { IfSome number (λ n. number_at marked.new.entries n ≡ None) }
    ensures others { (n : ℕ) → number ≢ Some n → number_at marked.new.entries n ≡ number_at marked.old.entries n }
    ensures count { length marked.new.entries
        + option_map_or (λ n. cond (is_some (number_at marked.old.entries n)) 1 0) number 0
        ≡ length marked.old.entries }
    ensures room { marked.new.room ≡ marked.old.room }
{
    let Some(number) = number else {
        return;
    };
    if marked.contains(number) {
        marked.take(number);
    }
}

impl<K: Copy + Eq + Hash> Uses<K> {
    /// No keys. The first key will get this number. Refused if memory runs out.
    pub fn new(alloc: Global, first: u64) -> Result<Self, AllocError>
        ensures { IfOk result (λ uses. uses ≡ []) }
    {
        let numbers = LruCache::unbounded(alloc)?;
        Ok(Uses {
            next: first,
            numbers,
            marked: Marks::new(alloc),
        })
    }

    // Moves a key to the front, marked or not. Refused if memory or the numbers run out; then nothing changed.
    fn place(&mut self, key: K, is_marked: bool) -> Result<(), AllocError>
        ensures ok { OnOk result (self.new ≡ placed (K.eq key) key is_marked self.old) }
        ensures err { OnErr result (self.new ≡ self.old) }
    {
        let number = self.next;
        if number == u64::MAX {
            return Err(AllocError);
        }
        self.marked.make_room(self.numbers.len() + 1)?;
        put_mark(&mut self.marked, number, key, is_marked);
        let Ok(former) = self.numbers.put(key, number) else {
            take_mark(&mut self.marked, Some(number));
            return Err(AllocError);
        };
        take_mark(&mut self.marked, former);
        self.next = number + 1;
        Ok(())
    }

    // A copy with the keys numbered from 0 on. Refused if memory runs out.
    fn renumbered(&self) -> Result<Self, AllocError>
        ensures { IfOk result (λ uses. uses ≡ self.now) }
    {
        let _count = self.numbers.len();
        let alloc = *self.numbers.allocator();
        let mut anew = Uses::new(alloc, 0)?;
        let mut left = self.numbers.iter();
        'numbering: while let Some((key, number)) = left.next_back() {
            let is_marked = self.marked.contains(*number);
            anew.place(*key, is_marked)?;
        }
        Ok(anew)
    }

    // Numbers all keys again if no number is left. Refused if memory runs out; then nothing changed.
    fn make_number(&mut self) -> Result<(), AllocError>
        ensures { self.new ≡ self.old }
    {
        if self.next < u64::MAX {
            return Ok(());
        }
        *self = self.renumbered()?;
        Ok(())
    }

    /// Moves a key to the front, marked or not, or inserts it there. Refused if memory runs out; then nothing changed.
    pub fn bring(&mut self, key: K, is_marked: bool) -> Result<(), AllocError>
        ensures ok { OnOk result (self.new ≡ placed (K.eq key) key is_marked self.old) }
        ensures err { OnErr result (self.new ≡ self.old) }
    {
        self.make_number()?;
        self.place(key, is_marked)
    }

    /// Moves a key to the front with its mark, and returns whether it is in the set. A key that is already in front keeps its number. Refused if
    /// memory runs out; then nothing changed.
    pub fn touch(&mut self, key: K) -> Result<bool, AllocError>
        ensures there { IfOk result (λ there. there ≡ is_some (lookup (K.eq key) self.old)) }
        ensures ok { OnOk result (self.new ≡ promoted (K.eq key) self.old) }
        ensures err { OnErr result (self.new ≡ self.old) }
    {
        if self.is_first(key) {
            return Ok(true);
        }
        let Some(is_marked) = self.mark_of(key) else {
            return Ok(false);
        };
        self.bring(key, is_marked)?;
        Ok(true)
    }

    // Whether a key is marked. None if it isn't in the set.
    fn mark_of(&self, key: K) -> Option<bool>
        ensures { result ≡ lookup (K.eq key) self.now }
    {
        match self.numbers.peek(&key) {
            Some(number) => Some(self.marked.contains(*number)),
            None => None,
        }
    }

    /// Marks a key of the set. Needs no memory.
    pub fn mark(&mut self, key: K)
        ensures { self.new ≡ set_value (K.eq key) self.old true }
    {
        let Some(number) = self.numbers.peek(&key) else {
            return;
        };
        let has_mark = self.marked.contains(*number);
        put_mark(&mut self.marked, *number, key, !has_mark);
    }

    /// Removes the mark of a key of the set.
    pub fn unmark(&mut self, key: K)
        ensures { self.new ≡ set_value (K.eq key) self.old false }
    {
        let Some(number) = self.numbers.peek(&key) else {
            return;
        };
        take_mark(&mut self.marked, Some(*number));
    }

    /// Removes a key.
    pub fn remove(&mut self, key: K)
        ensures { self.new ≡ remove_entry (K.eq key) self.old }
    {
        let former = self.numbers.pop(&key);
        take_mark(&mut self.marked, former);
    }

    /// Whether a key is in front.
    pub fn is_first(&self, key: K) -> bool
        ensures { result ≡ is_first (K.eq key) self.now }
    {
        match self.numbers.peek_mru() {
            Some((first, _)) => key == *first,
            None => false,
        }
    }

    /// The marked key that was used last.
    pub fn first_marked(&self) -> Option<K>
        ensures { IsFoundAs K.eq result (first_marked self.now) }
    {
        self.marked.below(self.next)
    }

    /// The marked key that was used last before the given key of the set.
    pub fn next_marked(&self, key: K) -> Option<K>
        ensures { IsFoundAs K.eq result (first_marked (behind (K.eq key) self.now)) }
    {
        let Some(number) = self.numbers.peek(&key) else {
            return None;
        };
        self.marked.below(*number)
    }
}
