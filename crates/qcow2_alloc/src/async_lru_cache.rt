//! A cache of bounded size over a store that is lent to each call.
ghost use Rattle.std.specs.Prelude.{◌≡◌, ◌≢◌, ◌<◌, ◌≤◌, ◌↔◌, IsTrue, cond, [], length, option_copied, option_map, All};
ghost use Rattle.std.specs.Prelude.{IsSome, IsNone, IfOk, IfSome, OnErr, Ok, Err, None, true, false};
ghost use Rattle.std.specs.List.{IsDistinct};
ghost use Rattle.std.specs.Map.{keys_of, lookup, lookup_entry, remove_entry};
ghost use Rattle.lru.specs.LruCache.{promoted};
ghost use Rattle.qcow2_alloc.specs.AsyncLruCache.{cache_of, with_entries, value_at, is_pinned, can_pin, pin_at};
ghost use Rattle.qcow2_alloc.specs.AsyncLruCache.{can_unpin, unpin_at, can_remove, oldest_free, pinned, pins_at};
ghost use Rattle.qcow2_alloc.specs.AsyncLruCache.{IsInFront, KeepsOthers, OnlyOldestGoes, KeepsPins};
ghost use Rattle.qcow2_alloc.specs.AsyncLruCacheBackend.{KeepsKnown, OverlaysBytes};
ghost use Rattle.qcow2_alloc.specs.CacheAnswers.{Invalidates, Flushes, FlushesKey, GetsNew, InsertsNew, Replaces};

mod backend;
mod entries;
mod error;
mod slot;

pub use backend::{AsyncLruCacheBackend, CacheTypes, CachedValue};
use entries::{
    evict_entry, evict_free, first_pinned, flush_all, flush_entry, insert_new, load_new,
    oldest_free, pinned_keys, replace_entry,
};
pub use error::CacheError;
use lru::LruCache;
#[doc(hidden)]
pub use slot::Slot;
use std::alloc::{AllocError, Global};
use std::marker::Model;

/// A cache of at most `size` values, in the order of their use. A pinned value stays in the cache, and can be found.
#[derive(Drop)]
pub struct AsyncLruCache<B: CacheTypes> {
    backend: B,
    size: usize,
    entries: LruCache<B::Key, Slot<B::Value>>,
}

impl<B: CacheTypes> Model for AsyncLruCache<B> {
    ghost use Rattle.std.specs.Prelude.{◌≡◌, ◌≤◌, ◌^◌, ◌-◌, length};
    ghost use Rattle.qcow2_alloc.specs.AsyncLruCache.{Cache, cache_of};

    ghost Value = { Cache B B.Key B.Value };

    ghost view = { λ a. cache_of a.backend a.size a.entries.entries };

    ghost invariant = { λ a. (length a.entries.entries ≤ a.size) × (a.entries.cap ≡ 2 ^ 64 - 1) };
}

impl<B: AsyncLruCacheBackend> AsyncLruCache<B> {
    /// An empty cache of at most `size` entries. Refused if memory runs out.
    pub fn new(alloc: Global, backend: B, size: usize) -> Result<Self, AllocError>
    where
        B: Drop,
        ensures { IfOk result (λ c. c ≡ cache_of backend size []) }
    {
        let entries = LruCache::unbounded(alloc)?;
        Ok(AsyncLruCache {
            backend,
            size,
            entries,
        })
    }

    /// The number of entries.
    pub fn len(&self) -> usize
        ensures len { result ≡ length self.now.entries }
        ensures fits { length self.now.entries ≤ self.now.size }
        ensures distinct { IsDistinct B.Key.eq (keys_of self.now.entries) }
    {
        self.entries.len()
    }

    /// Brings the value under a key to the front, and loads it before if it isn't in the cache: true. False if the cache is full and
    /// nothing may be flushed. If flushing is allowed, the least recently used entry without a pin is flushed and then removed.
    /// Refused `InUse` if that is needed and every entry is pinned, `Backend` if a flush or the load fails, and `Memory`. After a
    /// failed flush the entries are the same; after a later failure the removed one is missing.
    pub fn get_or_insert(
        &mut self,
        store: &mut B::Store,
        key: B::Key,
        may_flush: bool,
    ) -> Result<bool, CacheError<B::Key, B::Error>>
        ensures hit { IsSome (lookup (B.Key.eq key) self.old.entries)
            → (result ≡ Ok true) × (self.new.entries ≡ promoted (B.Key.eq key) self.old.entries)
            × (store.new ≡ store.old) }
        ensures miss { IsNone (lookup (B.Key.eq key) self.old.entries)
            → GetsNew (B.steps self.old.backend) B.Key.eq self.old.size may_flush key
            store.old self.old.entries result store.new self.new.entries }
        ensures kept { KeepsOthers B.Key.eq key self.old self.new }
        ensures keeps { B.keeps store.old store.new }

        // The value is at the front. Only the least recently used entry without a pin is removed, after its flush succeeded.
        ensures front { result ≡ Ok true → IsInFront (B.Key.eq key) self.new.entries }
        ensures eviction { OnlyOldestGoes B.Key.eq
            (λ e. (w : B.Value) × (t : B.Store)
            × (B.steps self.old.backend).flushed store.old e.0 e.1.value w t) self.old.entries self.new.entries }

        // The bytes of the store, with the modified values laid over, stay the same.
        ensures known { KeepsKnown B.Key.eq B.Value.is_modified B.Value.bytes
            (B.stored self.old.backend) B.is_honest store.old self.old.entries store.new self.new.entries }
    {
        let _count = self.entries.len();
        if self.entries.promote(&key) {
            return Ok(true);
        }
        load_new(
            &self.backend,
            store,
            &mut self.entries,
            self.size,
            key,
            may_flush,
        )
    }

    /// Puts a value at the front: true. For a new key the value is inserted as if it were loaded. Otherwise it replaces the value
    /// under the key, which is flushed first. It is taken out of `value` only then. False if a flush is needed and not allowed, and if there
    /// is no value. Refused `InUse` and `Memory` as `get_or_insert` is, and `Backend` if a flush fails. The caller keeps the value
    /// then.
    pub fn insert(
        &mut self,
        store: &mut B::Store,
        key: B::Key,
        value: &mut Option<B::Value>,
        may_flush: bool,
    ) -> Result<bool, CacheError<B::Key, B::Error>>
        ensures nothing { IsNone value.old
            → (result ≡ Ok false) × (self.new ≡ self.old) × (store.new ≡ store.old) × (value.new ≡ None) }
        ensures there { IfSome (lookup_entry (B.Key.eq key) self.old.entries)
            (λ e. IfSome value.old (λ v. Replaces (B.steps self.old.backend) key e
            (remove_entry (B.Key.eq key) self.old.entries) v may_flush store.old self.old.entries result store.new
            self.new.entries value.new)) }
        ensures missing { IsNone (lookup (B.Key.eq key) self.old.entries)
            → IfSome value.old (λ v. InsertsNew
            (B.steps self.old.backend) B.Key.eq self.old.size may_flush key v store.old self.old.entries result
            store.new self.new.entries value.new) }
        ensures kept { KeepsOthers B.Key.eq key self.old self.new }
        ensures keeps { B.keeps store.old store.new }

        // The value is laid over the known bytes if it was taken. Otherwise they stay the same.
        ensures laid { IfSome value.old
            (λ v. result ≡ Ok true → OverlaysBytes B.Key.eq B.Value.is_modified B.Value.bytes
            (B.stored self.old.backend) B.is_honest key v store.old self.old.entries store.new self.new.entries) }
        ensures known { result ≢ Ok true
            → KeepsKnown B.Key.eq B.Value.is_modified B.Value.bytes
            (B.stored self.old.backend) B.is_honest store.old self.old.entries store.new self.new.entries }
    {
        let _count = self.entries.len();
        if value.is_none() {
            return Ok(false);
        }
        if self.entries.contains(&key) {
            return replace_entry(
                &self.backend,
                store,
                &mut self.entries,
                key,
                value,
                may_flush,
            );
        }
        insert_new(
            &self.backend,
            store,
            &mut self.entries,
            self.size,
            key,
            value,
            may_flush,
        )
    }

    /// The value under a key. The order stays the same.
    pub fn peek(&self, key: B::Key) -> Option<&B::Value>
        ensures { option_copied result ≡ value_at (B.Key.eq key) self.now.entries }
    {
        let slot = self.entries.peek(&key)?;
        Some(&slot.value)
    }

    /// Adds a pin to the entry under a key. False if there is no entry, or its number of pins is the greatest one.
    pub fn pin(&mut self, key: B::Key) -> bool
        ensures value { result ≡ can_pin (B.Key.eq key) self.old.entries }
        ensures entries { self.new ≡ with_entries self.old (pin_at (B.Key.eq key) self.old.entries) }
    {
        let Some(slot) = self.entries.peek_mut(&key) else {
            return false;
        };
        if slot.pins == usize::MAX {
            return false;
        }
        slot.pins += 1;
        true
    }

    /// Removes a pin from the entry under a key. False if it has none.
    pub fn unpin(&mut self, key: B::Key) -> bool
        ensures value { result ≡ can_unpin (B.Key.eq key) self.old.entries }
        ensures entries { self.new ≡ with_entries self.old (unpin_at (B.Key.eq key) self.old.entries) }
    {
        let Some(slot) = self.entries.peek_mut(&key) else {
            return false;
        };
        if slot.pins == 0 {
            return false;
        }
        slot.pins -= 1;
        true
    }

    /// Whether the entry under a key is pinned. False if there is no entry.
    pub fn is_pinned(&self, key: B::Key) -> bool
        ensures { IsTrue result ↔ (0 < pins_at (B.Key.eq key) self.now.entries) }
    {
        match self.entries.peek(&key) {
            Some(slot) => slot.pins > 0,
            None => false,
        }
    }

    /// The key of some pinned entry, if there is one.
    pub fn first_pinned(&self) -> Option<B::Key>
        ensures none { IsNone result → pinned self.now.entries ≡ [] }
        ensures some { IfSome result (λ key. 0 < pins_at (B.Key.eq key) self.now.entries) }
    {
        first_pinned(&self.entries)
    }

    /// Flushes each entry, the most recently used first, and continues after a failure. Refused `Backend` with the first failure.
    pub fn flush(&mut self, store: &mut B::Store) -> Result<(), CacheError<B::Key, B::Error>>
        ensures distinct { IsDistinct B.Key.eq (keys_of self.old.entries) }
        ensures flushed { Flushes (B.steps self.old.backend)
            store.old self.old.entries result store.new self.new.entries }
        ensures others { self.new ≡ with_entries self.old self.new.entries }
        ensures keeps { B.keeps store.old store.new }
        ensures pins { KeepsPins B.Key.eq self.old.entries self.new.entries }
        ensures known { KeepsKnown B.Key.eq B.Value.is_modified B.Value.bytes
            (B.stored self.old.backend) B.is_honest store.old self.old.entries store.new self.new.entries }
    {
        match flush_all(&self.backend, store, &mut self.entries) {
            None => Ok(()),
            Some(e) => Err(CacheError::Backend(e)),
        }
    }

    /// Flushes the entry under a key. False if there is none. The order stays the same. Refused `Backend` if the flush fails.
    pub fn flush_key(
        &mut self,
        store: &mut B::Store,
        key: B::Key,
    ) -> Result<bool, CacheError<B::Key, B::Error>>
        ensures missing { IsNone (lookup (B.Key.eq key) self.old.entries)
            → (result ≡ Ok false) × (self.new ≡ self.old) × (store.new ≡ store.old) }
        ensures there { IfSome (lookup (B.Key.eq key) self.old.entries) (λ s.
            FlushesKey (B.steps self.old.backend) (B.Key.eq key) key s
            store.old self.old.entries result store.new self.new.entries) }
        ensures others { self.new ≡ with_entries self.old self.new.entries }
        ensures keeps { B.keeps store.old store.new }
        ensures known { KeepsKnown B.Key.eq B.Value.is_modified B.Value.bytes
            (B.stored self.old.backend) B.is_honest store.old self.old.entries store.new self.new.entries }
    {
        if !self.entries.contains(&key) {
            return Ok(false);
        }
        if let Err(e) = flush_entry(&self.backend, store, &mut self.entries, key) {
            return Err(CacheError::Backend(e));
        }
        Ok(true)
    }

    /// The key of the least recently used entry without a pin, which would be removed next.
    pub fn next_out(&self) -> Option<B::Key>
        ensures { result ≡ option_map (λ e. e.0) (oldest_free self.now.entries) }
    {
        oldest_free(&self.entries)
    }

    // The keys of the pinned entries, the most recently used first.
    pub(crate) fn pinned_keys(&self) -> Result<Vec<B::Key>, AllocError>
        ensures ok { IfOk result (λ keys. keys.items ≡ keys_of (pinned self.now.entries)) }
        ensures err { OnErr result (0 < length (pinned self.now.entries)) }
    {
        let alloc = *self.entries.allocator();
        pinned_keys(alloc, &self.entries)
    }

    /// Removes each entry without a pin, unflushed, and gives it to the backend. Refused `StillInUse` with the keys of the pinned entries, which
    /// stay. Refused `Memory` if there is no memory for the keys, and then nothing changed.
    pub fn invalidate(&mut self) -> Result<(), CacheError<B::Key, B::Error>>
        ensures distinct { IsDistinct B.Key.eq (keys_of self.old.entries) }
        ensures answer { Invalidates self.old.entries result self.new.entries }
        ensures evicted { result ≢ Err CacheError.Memory
            → All (λ e. is_pinned e.1 ≡ false → B.evicted self.old.backend e.0 e.1.value) self.old.entries }
        ensures others { self.new ≡ with_entries self.old self.new.entries }
        ensures pins { KeepsPins B.Key.eq self.old.entries self.new.entries }
    {
        let _count = self.entries.len();
        let alloc = *self.entries.allocator();
        let Ok(keys) = pinned_keys(alloc, &self.entries) else {
            return Err(CacheError::Memory);
        };
        evict_free(&self.backend, &mut self.entries);
        if keys.is_empty() {
            Ok(())
        } else {
            Err(CacheError::StillInUse(keys))
        }
    }

    /// Removes the entry under a key, unflushed, and gives it to the backend. False if there is none, or it is pinned.
    pub fn remove(&mut self, key: B::Key) -> bool
        ensures distinct { IsDistinct B.Key.eq (keys_of self.old.entries) }
        ensures value { result ≡ can_remove (B.Key.eq key) self.old.entries }
        ensures evicted { IfSome (lookup (B.Key.eq key) self.old.entries) (λ s.
            result ≡ true → B.evicted self.old.backend key s.value) }
        ensures entries { self.new
            ≡ with_entries self.old (cond result (remove_entry (B.Key.eq key) self.old.entries) self.old.entries) }
    {
        let _count = self.entries.len();
        let Some(slot) = self.entries.peek(&key) else {
            return false;
        };
        if slot.pins > 0 {
            return false;
        }
        evict_entry(&self.backend, &mut self.entries, key);
        true
    }
}

impl<B: AsyncLruCacheBackend> AsyncLruCache<B> {
    ghost use Rattle.std.specs.Borrow.{LendsIf, sem};
    ghost use Rattle.std.specs.Option.{option_copied_mut};
    ghost use Rattle.qcow2_alloc.specs.AsyncLruCache.{set_at};
    ghost use Rattle.qcow2_alloc.specs.contracts.async_lru_cache.AsyncLruCache.{the_row};

    /// The value under a key, to be changed in place. The order stays the same.
    pub fn peek_mut(&mut self, key: B::Key) -> Option<&mut B::Value>
        // The cache ends with the last value behind the result set under the key.
        ensures* writes_back { sem 𝓛 (LendsIf
            (the_row B.row B.Key.row B.Value.row B.Error.row B.Store.row (record {}) (record { eq = B.Key.eq })
            (record { hash_input = B.Key.hash_input }) B.Value.CachedValue) B.Value.row self.entry result
            (λ w. with_entries self.entry.now (set_at (B.Key.eq key) self.entry.now.entries w)) self.entry.now) }
        ensures distinct { IsDistinct B.Key.eq (keys_of self.old.entries) }
        ensures value { option_copied_mut result ≡ value_at (B.Key.eq key) self.old.entries }
    {
        let _count = self.entries.len();
        let slot = self.entries.peek_mut(&key)?;
        Some(&mut slot.value)
    }
}
