//! A cache of tables in the order of their last use, which remembers which of them are modified.
ghost use Rattle.std.specs.Prelude.{◌||◌, ◌≡◌, ◌≢◌, ◌<◌, ◌↔◌, IsTrue, cond, [], length, option_copied, option_map};
ghost use Rattle.std.specs.Prelude.{IsSome, IsNone, IfOk, IfSome, MatchOption, OnErr, Ok, Err, None, true, false};
ghost use Rattle.std.specs.List.{IsDistinct};
ghost use Rattle.std.specs.Map.{keys_of, lookup, lookup_entry, remove_entry, set_value};
ghost use Rattle.std.specs.Option.{option_map_or};
ghost use Rattle.lru.specs.LruCache.{promoted};
ghost use Rattle.qcow2_alloc.specs.AsyncLruCache.{cache_of, with_entries, value_at, is_pinned, can_pin, pin_at};
ghost use Rattle.qcow2_alloc.specs.AsyncLruCache.{can_unpin, unpin_at, can_remove, oldest_free, pinned, pins_at};
ghost use Rattle.qcow2_alloc.specs.AsyncLruCache.{IsInFront, KeepsOthers, OnlyOldestGoes, KeepsPins};
ghost use Rattle.qcow2_alloc.specs.AsyncLruCacheBackend.{KeepsKnown, OverlaysBytes};
ghost use Rattle.qcow2_alloc.specs.CacheAnswers.{Invalidates, Flushes, FlushesAll, GetsNew, InsertsNew, Replaces};
ghost use Rattle.qcow2_alloc.specs.TableCache.{settled, ChangesValue};
ghost use Rattle.qcow2_alloc.specs.TableCache.{marks_in, failure_of, FlushesAt};
ghost use Rattle.qcow2_alloc.specs.Uses.{first_marked, behind, IsFoundAs};

mod backend;
mod marks;
mod uses;

use crate::async_lru_cache::{AsyncLruCache, CacheError, CacheTypes};
pub use backend::{Change, TableBackend};
use std::alloc::{AllocError, Global};
use std::hash::Hash;
use std::marker::Model;
pub use uses::Uses;

/// A cache whose modified values are found without a walk over the others. Each key has the number of its last use, and the
/// keys of modified values are stored by these numbers.
#[derive(Drop)]
pub struct TableCache<B: CacheTypes> {
    cache: AsyncLruCache<B>,
    uses: Uses<B::Key>,
}

impl<B: CacheTypes> Model for TableCache<B> {
    ghost use Rattle.std.specs.Prelude.{◌≡◌};
    ghost use Rattle.qcow2_alloc.specs.AsyncLruCache.{Cache};
    ghost use Rattle.qcow2_alloc.specs.TableCache.{marks_in};

    ghost Value = { Cache B B.Key B.Value };

    ghost view = { λ a. a.cache };

    ghost invariant = { λ a. a.uses ≡ marks_in B.Value.is_modified a.cache.entries };
}

impl<B: TableBackend> TableCache<B> {
    /// An empty cache of at most `size` entries. Refused if memory runs out.
    pub fn new(alloc: Global, backend: B, size: usize) -> Result<Self, AllocError>
    where
        B: Drop,
        ensures { IfOk result (λ c. c ≡ cache_of backend size []) }
    {
        TableCache::numbered_from(alloc, backend, size, 0)
    }

    // An empty cache whose first use has this number.
    fn numbered_from(alloc: Global, backend: B, size: usize, first: u64) -> Result<Self, AllocError>
    where
        B: Drop,
        ensures { IfOk result (λ c. c ≡ cache_of backend size []) }
    {
        let cache = AsyncLruCache::new(alloc, backend, size)?;
        let uses = Uses::new(alloc, first)?;
        Ok(TableCache { cache, uses })
    }

    /// The value under a key. The order stays the same.
    pub fn peek(&self, key: B::Key) -> Option<&B::Value>
        ensures value { option_copied result ≡ value_at (B.Key.eq key) self.now.entries }
        ensures distinct { IsDistinct B.Key.eq (keys_of self.now.entries) }
    {
        let _count = self.cache.len();
        self.cache.peek(key)
    }

    /// Adds a pin to the entry under a key. False if there is no entry, or its number of pins is the greatest one.
    pub fn pin(&mut self, key: B::Key) -> bool
        ensures value { result ≡ can_pin (B.Key.eq key) self.old.entries }
        ensures entries { self.new ≡ with_entries self.old (pin_at (B.Key.eq key) self.old.entries) }
    {
        self.cache.pin(key)
    }

    /// Removes a pin from the entry under a key. False if it has none.
    pub fn unpin(&mut self, key: B::Key) -> bool
        ensures value { result ≡ can_unpin (B.Key.eq key) self.old.entries }
        ensures entries { self.new ≡ with_entries self.old (unpin_at (B.Key.eq key) self.old.entries) }
    {
        self.cache.unpin(key)
    }

    /// Whether the entry under a key is pinned. False if there is no entry.
    pub fn is_pinned(&self, key: B::Key) -> bool
        ensures { IsTrue result ↔ (0 < pins_at (B.Key.eq key) self.now.entries) }
    {
        self.cache.is_pinned(key)
    }

    /// The key of some pinned entry, if there is one.
    pub fn first_pinned(&self) -> Option<B::Key>
        ensures none { IsNone result → pinned self.now.entries ≡ [] }
        ensures some { IfSome result (λ key. 0 < pins_at (B.Key.eq key) self.now.entries) }
    {
        self.cache.first_pinned()
    }

    /// Removes the entry under a key, unflushed, and gives it to the backend. False if there is none, or it is pinned.
    pub fn remove(&mut self, key: B::Key) -> bool
        ensures distinct { IsDistinct B.Key.eq (keys_of self.old.entries) }
        ensures value { result ≡ can_remove (B.Key.eq key) self.old.entries }
        ensures evicted { IfSome (lookup (B.Key.eq key) self.old.entries) (λ s.
            result ≡ true → B.evicted self.old.backend key s.value) }
        ensures entries { self.new
            ≡ with_entries self.old (cond result (remove_entry (B.Key.eq key) self.old.entries) self.old.entries) }
    {
        if !self.cache.remove(key) {
            return false;
        }
        self.uses.remove(key);
        true
    }

    /// Brings the value under a key to the front, and loads it before if it isn't in the cache: true. False if the cache is full and
    /// nothing may be flushed. If flushing is allowed, the least recently used entry without a pin is flushed and then removed. The inner
    /// result is refused as that of an `AsyncLruCache` is. The call itself is refused if there is no memory for the key, and then
    /// nothing changed.
    pub fn get_or_insert(
        &mut self,
        store: &mut B::Store,
        key: B::Key,
        may_flush: bool,
    ) -> Result<Result<bool, CacheError<B::Key, B::Error>>, AllocError>
        ensures refused { OnErr result ((self.new ≡ self.old) × (store.new ≡ store.old)) }
        ensures hit { IsSome (lookup (B.Key.eq key) self.old.entries) → IfOk result (λ got.
            (got ≡ Ok true) × (self.new.entries ≡ promoted (B.Key.eq key) self.old.entries) × (store.new ≡ store.old)) }
        ensures miss { IsNone (lookup (B.Key.eq key) self.old.entries) → IfOk result (λ got.
            GetsNew (B.steps self.old.backend) B.Key.eq self.old.size may_flush key
            store.old self.old.entries got store.new self.new.entries) }
        ensures kept { KeepsOthers B.Key.eq key self.old self.new }
        ensures keeps { B.keeps store.old store.new }

        // The value is at the front. Only the least recently used entry without a pin is removed, after its flush succeeded.
        ensures front { IfOk result (λ got. got ≡ Ok true → IsInFront (B.Key.eq key) self.new.entries) }
        ensures eviction { OnlyOldestGoes B.Key.eq
            (λ e. (w : B.Value) × (t : B.Store)
            × (B.steps self.old.backend).flushed store.old e.0 e.1.value w t) self.old.entries self.new.entries }

        // The bytes of the store, with the modified values laid over, stay the same.
        ensures known { KeepsKnown B.Key.eq B.Value.is_modified B.Value.bytes
            (B.stored self.old.backend) B.is_honest store.old self.old.entries store.new self.new.entries }
    {
        let _count = self.cache.len();
        match self.uses.touch(key) {
            Ok(true) => Ok(self.cache.get_or_insert(store, key, may_flush)),
            Ok(false) => self.get_new(store, key, may_flush),
            Err(refusal) => Err(refusal),
        }
    }

    // Loads a value under a new key, as `get_or_insert` does.
    fn get_new(
        &mut self,
        store: &mut B::Store,
        key: B::Key,
        may_flush: bool,
    ) -> Result<Result<bool, CacheError<B::Key, B::Error>>, AllocError>
        requires missing { lookup (B.Key.eq key) self.old.entries ≡ None }
        ensures refused { OnErr result ((self.new ≡ self.old) × (store.new ≡ store.old)) }
        ensures miss { IfOk result (λ got. GetsNew (B.steps self.old.backend) B.Key.eq self.old.size may_flush key
            store.old self.old.entries got store.new self.new.entries) }
        ensures kept { KeepsOthers B.Key.eq key self.old self.new }
        ensures keeps { B.keeps store.old store.new }
        ensures front { IfOk result (λ got. got ≡ Ok true → IsInFront (B.Key.eq key) self.new.entries) }
        ensures eviction { OnlyOldestGoes B.Key.eq
            (λ e. (w : B.Value) × (t : B.Store)
            × (B.steps self.old.backend).flushed store.old e.0 e.1.value w t) self.old.entries self.new.entries }
        ensures known { KeepsKnown B.Key.eq B.Value.is_modified B.Value.bytes
            (B.stored self.old.backend) B.is_honest store.old self.old.entries store.new self.new.entries }
    {
        let _count = self.cache.len();
        let Ok(()) = self.uses.bring(key, false) else {
            return Err(AllocError);
        };
        let out = self.cache.next_out();
        let got = self.cache.get_or_insert(store, key, may_flush);
        settle(&self.cache, &mut self.uses, Some(key));
        settle(&self.cache, &mut self.uses, out);
        Ok(got)
    }

    /// Puts a value at the front: true. For a new key the value is inserted as if it were loaded. Otherwise it replaces the value
    /// under the key, which is flushed first. It is taken out of `value` only then. False if a flush is needed and not allowed, and if there
    /// is no value. The inner result is refused as that of an `AsyncLruCache` is, and the caller keeps the value. The call itself is
    /// refused if there is no memory for the key, and then nothing changed.
    pub fn insert(
        &mut self,
        store: &mut B::Store,
        key: B::Key,
        value: &mut Option<B::Value>,
        may_flush: bool,
    ) -> Result<Result<bool, CacheError<B::Key, B::Error>>, AllocError>
        ensures refused { OnErr result ((self.new ≡ self.old) × (store.new ≡ store.old) × (value.new ≡ value.old)) }
        ensures nothing { IsNone value.old
            → (result ≡ Ok (Ok false)) × (self.new ≡ self.old) × (store.new ≡ store.old) × (value.new ≡ None) }
        ensures there { IfSome (lookup_entry (B.Key.eq key) self.old.entries) (λ e.
            IfSome value.old (λ v. IfOk result (λ put.
            Replaces (B.steps self.old.backend) key e (remove_entry (B.Key.eq key) self.old.entries) v may_flush
            store.old self.old.entries put store.new self.new.entries value.new))) }
        ensures missing { IsNone (lookup (B.Key.eq key) self.old.entries) → IfSome value.old (λ v. IfOk result (λ put.
            InsertsNew (B.steps self.old.backend) B.Key.eq self.old.size may_flush key v
            store.old self.old.entries put store.new self.new.entries value.new)) }
        ensures kept { KeepsOthers B.Key.eq key self.old self.new }
        ensures keeps { B.keeps store.old store.new }

        // The value is laid over the known bytes if it was taken. Otherwise they stay the same.
        ensures laid { IfSome value.old
            (λ v. result ≡ Ok (Ok true) → OverlaysBytes B.Key.eq B.Value.is_modified B.Value.bytes
            (B.stored self.old.backend) B.is_honest key v store.old self.old.entries store.new self.new.entries) }
        ensures known { result ≢ Ok (Ok true)
            → KeepsKnown B.Key.eq B.Value.is_modified B.Value.bytes
            (B.stored self.old.backend) B.is_honest store.old self.old.entries store.new self.new.entries }
    {
        let _count = self.cache.len();
        let Some(given) = value.as_ref() else {
            return Ok(Ok(false));
        };
        let is_modified = B::is_modified(given);
        let Some(held) = self.cache.peek(key) else {
            return self.insert_new(store, key, value, may_flush, is_modified);
        };
        if !may_flush {
            return Ok(Ok(false));
        }
        let is_marked = is_modified || B::is_modified(held);
        self.replace(store, key, value, is_marked)
    }

    // Inserts a value under a new key, as `insert` does.
    fn insert_new(
        &mut self,
        store: &mut B::Store,
        key: B::Key,
        value: &mut Option<B::Value>,
        may_flush: bool,
        is_modified: bool,
    ) -> Result<Result<bool, CacheError<B::Key, B::Error>>, AllocError>
        requires missing { lookup (B.Key.eq key) self.old.entries ≡ None }
        requires given { IsSome value.old }
        requires marked { IfSome value.old (λ v. B.Value.is_modified v ≡ is_modified) }
        ensures refused { OnErr result ((self.new ≡ self.old) × (store.new ≡ store.old) × (value.new ≡ value.old)) }
        ensures inserts { IfSome value.old (λ v. IfOk result (λ put.
            InsertsNew (B.steps self.old.backend) B.Key.eq self.old.size may_flush key v
            store.old self.old.entries put store.new self.new.entries value.new)) }
        ensures kept { KeepsOthers B.Key.eq key self.old self.new }
        ensures keeps { B.keeps store.old store.new }
        ensures laid { IfSome value.old
            (λ v. result ≡ Ok (Ok true) → OverlaysBytes B.Key.eq B.Value.is_modified B.Value.bytes
            (B.stored self.old.backend) B.is_honest key v store.old self.old.entries store.new self.new.entries) }
        ensures known { result ≢ Ok (Ok true)
            → KeepsKnown B.Key.eq B.Value.is_modified B.Value.bytes
            (B.stored self.old.backend) B.is_honest store.old self.old.entries store.new self.new.entries }
    {
        let _count = self.cache.len();
        let Ok(()) = self.uses.bring(key, is_modified) else {
            return Err(AllocError);
        };
        let out = self.cache.next_out();
        let put = self.cache.insert(store, key, value, may_flush);
        settle(&self.cache, &mut self.uses, Some(key));
        settle(&self.cache, &mut self.uses, out);
        Ok(put)
    }

    // Replaces the value under a key, as `insert` does.
    fn replace(
        &mut self,
        store: &mut B::Store,
        key: B::Key,
        value: &mut Option<B::Value>,
        is_marked: bool,
    ) -> Result<Result<bool, CacheError<B::Key, B::Error>>, AllocError>
        requires there { IsSome (lookup (B.Key.eq key) self.old.entries) }
        requires given { IsSome value.old }
        requires marked { IfSome (lookup (B.Key.eq key) self.old.entries) (λ s. IfSome value.old (λ v.
            is_marked ≡ (B.Value.is_modified v || B.Value.is_modified s.value))) }
        ensures refused { OnErr result ((self.new ≡ self.old) × (store.new ≡ store.old) × (value.new ≡ value.old)) }
        ensures replaces { IfSome (lookup_entry (B.Key.eq key) self.old.entries) (λ e.
            IfSome value.old (λ v. IfOk result (λ put.
            Replaces (B.steps self.old.backend) key e (remove_entry (B.Key.eq key) self.old.entries) v true
            store.old self.old.entries put store.new self.new.entries value.new))) }
        ensures kept { KeepsOthers B.Key.eq key self.old self.new }
        ensures keeps { B.keeps store.old store.new }
        ensures laid { IfSome value.old
            (λ v. result ≡ Ok (Ok true) → OverlaysBytes B.Key.eq B.Value.is_modified B.Value.bytes
            (B.stored self.old.backend) B.is_honest key v store.old self.old.entries store.new self.new.entries) }
        ensures known { result ≢ Ok (Ok true)
            → KeepsKnown B.Key.eq B.Value.is_modified B.Value.bytes
            (B.stored self.old.backend) B.is_honest store.old self.old.entries store.new self.new.entries }
    {
        let _count = self.cache.len();
        let Ok(()) = self.uses.bring(key, is_marked) else {
            return Err(AllocError);
        };
        let put = self.cache.insert(store, key, value, true);
        settle(&self.cache, &mut self.uses, Some(key));
        Ok(put)
    }

    /// Changes the value under a key, and returns what the change returns; None if there is no value. The order stays the same. Needs no memory:
    /// the key has had room among the modified ones since it was inserted.
    pub fn change<C: Change<B>>(&mut self, key: B::Key, how: &C) -> Option<C::Answer>
        ensures distinct { IsDistinct B.Key.eq (keys_of self.old.entries) }
        ensures changes { MatchOption (value_at (B.Key.eq key) self.old.entries) ((result ≡ None) × (self.new ≡ self.old))
            (λ v. ChangesValue B.Key.eq (C.applied how.now) key v self.old result self.new) }
    {
        let Some(value) = self.cache.peek_mut(key) else {
            return None;
        };
        let answer = how.apply(value);
        let is_modified = B::is_modified(value);
        set_mark(&mut self.uses, key, is_modified);
        answer
    }

    /// Removes each entry without a pin, unflushed. Refused `StillInUse` with the keys of the pinned entries, which stay. Refused
    /// `Memory` if there is no memory for the keys, and then nothing changed.
    pub fn invalidate(&mut self) -> Result<(), CacheError<B::Key, B::Error>>
        ensures distinct { IsDistinct B.Key.eq (keys_of self.old.entries) }
        ensures answer { Invalidates self.old.entries result self.new.entries }
        ensures others { self.new ≡ with_entries self.old self.new.entries }
        ensures pins { KeepsPins B.Key.eq self.old.entries self.new.entries }
    {
        let _next = self.next_out();
        let Ok(keys) = self.pinned_keys() else {
            return Err(CacheError::Memory);
        };
        self.take_free();
        if keys.is_empty() {
            Ok(())
        } else {
            Err(CacheError::StillInUse(keys))
        }
    }

    // The keys of the pinned entries, the most recently used first.
    fn pinned_keys(&self) -> Result<Vec<B::Key>, AllocError>
        ensures ok { IfOk result (λ keys. keys.items ≡ keys_of (pinned self.now.entries)) }
        ensures err { OnErr result (0 < length (pinned self.now.entries)) }
    {
        self.cache.pinned_keys()
    }

    // The key of the least recently used entry without a pin.
    fn next_out(&self) -> Option<B::Key>
        ensures distinct { IsDistinct B.Key.eq (keys_of self.now.entries) }
        ensures oldest { result ≡ option_map (λ e. e.0) (oldest_free self.now.entries) }
    {
        let _count = self.cache.len();
        self.cache.next_out()
    }

    // Removes each entry without a pin, unflushed.
    fn take_free(&mut self)
        ensures { self.new ≡ with_entries self.old (pinned self.old.entries) }
    {
        'taking: while let Some(key) = self.next_out() {
            self.remove(key);
        }
    }

    /// Flushes each modified entry, the most recently used first, and continues after a failure. An entry that fails stays modified. Refused
    /// `Backend` with the first failure. Needs no memory.
    pub fn flush(&mut self, store: &mut B::Store) -> Result<(), CacheError<B::Key, B::Error>>
        ensures distinct { IsDistinct B.Key.eq (keys_of self.old.entries) }
        ensures flushed { Flushes (B.steps self.old.backend)
            store.old self.old.entries result store.new self.new.entries }
        ensures others { self.new ≡ with_entries self.old self.new.entries }
        ensures keeps { B.keeps store.old store.new }
        ensures pins { KeepsPins B.Key.eq self.old.entries self.new.entries }
        ensures known { KeepsKnown B.Key.eq B.Value.is_modified B.Value.bytes
            (B.stored self.old.backend) B.is_honest store.old self.old.entries store.new self.new.entries }
    {
        let _count = self.cache.len();
        match self.flush_modified(store) {
            None => Ok(()),
            Some(failure) => Err(CacheError::Backend(failure)),
        }
    }

    // Flushes the modified entries and returns the first failure.
    fn flush_modified(&mut self, store: &mut B::Store) -> Option<B::Error>
        ensures distinct { IsDistinct B.Key.eq (keys_of self.old.entries) }
        ensures flushed { FlushesAll (B.steps self.old.backend)
            store.old self.old.entries result store.new self.new.entries }
        ensures others { self.new ≡ with_entries self.old self.new.entries }
        ensures keeps { B.keeps store.old store.new }
    {
        let mut first = None;
        let mut next = self.first_modified();
        'flushing: while let Some(key) = next {
            let failure = self.flush_one(store, key);
            first = first.or(failure);
            next = self.next_modified(key);
        }
        first
    }

    // Flushes the entry under a key, and returns its failure. After a failure the key stays among the modified ones.
    fn flush_one(&mut self, store: &mut B::Store, key: B::Key) -> Option<B::Error>
        requires there { IsSome (lookup (B.Key.eq key) self.old.entries) }
        ensures flushed { IfSome (lookup (B.Key.eq key) self.old.entries) (λ s.
            FlushesAt B.Key.eq (B.steps self.old.backend) key s store.old self.old result store.new self.new) }
        ensures others { self.new ≡ with_entries self.old self.new.entries }
        ensures keeps { B.keeps store.old store.new }
    {
        let flushed = self.cache.flush_key(store, key);
        settle(&self.cache, &mut self.uses, Some(key));
        failure_of(flushed)
    }

    // The key of the most recently used modified entry.
    fn first_modified(&self) -> Option<B::Key>
        ensures distinct { IsDistinct B.Key.eq (keys_of self.now.entries) }
        ensures found { IsFoundAs B.Key.eq result (first_marked (marks_in B.Value.is_modified self.now.entries)) }
    {
        let _count = self.cache.len();
        self.uses.first_marked()
    }

    // The key of the modified entry that was used last before the one under this key.
    fn next_modified(&self, key: B::Key) -> Option<B::Key>
        ensures distinct { IsDistinct B.Key.eq (keys_of self.now.entries) }
        ensures found { IsFoundAs B.Key.eq result
            (first_marked (behind (B.Key.eq key) (marks_in B.Value.is_modified self.now.entries))) }
    {
        let _count = self.cache.len();
        self.uses.next_marked(key)
    }
}

// Marks a key that is in the cache, or removes its mark.
fn set_mark<K: Copy + Eq + Hash>(uses: &mut Uses<K>, key: K, is_marked: bool)
    ensures { uses.new ≡ set_value (K.eq key) uses.old is_marked }
{
    if is_marked {
        uses.mark(key);
    } else {
        uses.unmark(key);
    }
}

// The backend's failure in the result of a flush.
fn failure_of<K: Drop, E: Drop>(answer: Result<bool, CacheError<K, E>>) -> Option<E>
    ensures { result ≡ failure_of answer }
{
    match answer {
        Err(CacheError::Backend(failure)) => Some(failure),
        _ => None,
    }
}

// Removes a key that the cache does not hold any more, or the mark of a key whose value is unmodified.
fn settle<B: TableBackend>(cache: &AsyncLruCache<B>, uses: &mut Uses<B::Key>, key: Option<B::Key>)
    ensures { uses.new ≡ option_map_or (λ k. settled B.Key.eq B.Value.is_modified cache.now.entries k uses.old) key uses.old }
{
    let Some(key) = key else {
        return;
    };
    let Some(value) = cache.peek(key) else {
        uses.remove(key);
        return;
    };
    if !B::is_modified(value) {
        uses.unmark(key);
    }
}
