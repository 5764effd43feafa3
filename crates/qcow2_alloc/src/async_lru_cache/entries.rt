//! Work on the entries of a cache.
ghost use Rattle.std.specs.Prelude.{slice_get, ◌≡◌, ◌-◌, ◌<◌, ◌≤◌, ◌^◌, length, option_map, All, IsSome, IfOk, OnErr};
ghost use Rattle.std.specs.Prelude.{IfSome, Ok, None, true, false};
ghost use Rattle.std.specs.List.{IsDistinct};
ghost use Rattle.std.specs.Map.{keys_of, lookup, lookup_entry, remove_entry};
ghost use Rattle.std.specs.Result.{result_err};
ghost use Rattle.lru.specs.LruCache.{lru_cache};
ghost use Rattle.qcow2_alloc.specs.AsyncLruCache.{is_pinned, oldest_free, pinned};
ghost use Rattle.qcow2_alloc.specs.CacheAnswers.{FlushesAll, MakesRoom, GetsNew, InsertsNew, Replaces};
ghost use Rattle.qcow2_alloc.specs.CachedEntries.{FlushesFound};

use super::backend::AsyncLruCacheBackend;
use super::error::CacheError;
use super::slot::Slot;
use lru::LruCache;
use std::alloc::{AllocError, AllocFailed, Global};
use std::hash::Hash;

// The key of the least recently used entry without a pin.
pub(crate) fn oldest_free<K: Copy + Eq + Hash, V>(entries: &LruCache<K, Slot<V>>) -> Option<K>
    ensures { result ≡ option_map (λ e. e.0) (oldest_free entries.now.entries) }
{
    let mut left = entries.iter();
    while let Some((key, slot)) = left.next_back() {
        if slot.pins == 0 {
            return Some(*key);
        }
    }
    None
}

// Flushes one entry. Nothing is done if the key has no entry.
pub(crate) fn flush_entry<B: AsyncLruCacheBackend>(
    backend: &B,
    store: &mut B::Store,
    entries: &mut LruCache<B::Key, Slot<B::Value>>,
    key: B::Key,
) -> Result<(), B::Error>
    ensures flushed { IfSome (lookup (B.Key.eq key) entries.old.entries) (λ slot.
        FlushesFound (B.steps backend.now) (B.Key.eq key) key slot store.old entries.old (result_err result) store.new entries.new) }
    ensures keeps { B.keeps store.old store.new }
{
    match entries.peek_mut(&key) {
        Some(slot) => backend.flush(store, key, &mut slot.value),
        None => Ok(()),
    }
}

// Makes room for one more entry.
pub(crate) fn make_room<B: AsyncLruCacheBackend>(
    backend: &B,
    store: &mut B::Store,
    entries: &mut LruCache<B::Key, Slot<B::Value>>,
    size: usize,
    may_flush: bool,
) -> Result<bool, CacheError<B::Key, B::Error>>
    requires { length entries.old.entries ≤ size }
    ensures distinct { IsDistinct B.Key.eq (keys_of entries.old.entries) }
    ensures room { MakesRoom (B.steps backend.now) B.Key.eq size may_flush store.old entries.old.entries result store.new entries.new.entries }
    ensures space { result ≡ Ok true → length entries.new.entries < size }
    ensures fits { length entries.new.entries ≤ size }
    ensures cap { entries.new.cap ≡ entries.old.cap }
    ensures keeps { B.keeps store.old store.new }
{
    if entries.len() < size {
        return Ok(true);
    }
    if !may_flush {
        return Ok(false);
    }
    let Some(key) = oldest_free(entries) else {
        return Err(CacheError::InUse);
    };
    if let Err(failure) = flush_entry(backend, store, entries, key) {
        return Err(CacheError::Backend(failure));
    }
    entries.pop(&key);
    Ok(true)
}

// Loads the value of a key that has no entry.
pub(crate) fn load_new<B: AsyncLruCacheBackend>(
    backend: &B,
    store: &mut B::Store,
    entries: &mut LruCache<B::Key, Slot<B::Value>>,
    size: usize,
    key: B::Key,
    may_flush: bool,
) -> Result<bool, CacheError<B::Key, B::Error>>
    requires fits { length entries.old.entries ≤ size }
    requires unbounded { entries.old.cap ≡ 2 ^ 64 - 1 }
    requires missing { lookup (B.Key.eq key) entries.old.entries ≡ None }
    ensures distinct { IsDistinct B.Key.eq (keys_of entries.old.entries) }
    ensures loads { GetsNew (B.steps backend.now) B.Key.eq size may_flush key store.old entries.old.entries result store.new entries.new.entries }
    ensures fits { length entries.new.entries ≤ size }
    ensures cap { entries.new.cap ≡ entries.old.cap }
    ensures keeps { B.keeps store.old store.new }
{
    match make_room(backend, store, entries, size, may_flush) {
        Ok(true) => {}
        refused => return refused,
    }
    let alloc = *entries.allocator();
    let value = match backend.load(alloc, store, key) {
        Ok(value) => value,
        Err(e) => return Err(CacheError::Backend(e)),
    };
    match entries.put(key, Slot { value, pins: 0 }) {
        Ok(_) => Ok(true),
        Err(_) => Err(CacheError::Memory),
    }
}

// Inserts a value under a key that has no entry.
pub(crate) fn insert_new<B: AsyncLruCacheBackend>(
    backend: &B,
    store: &mut B::Store,
    entries: &mut LruCache<B::Key, Slot<B::Value>>,
    size: usize,
    key: B::Key,
    value: &mut Option<B::Value>,
    may_flush: bool,
) -> Result<bool, CacheError<B::Key, B::Error>>
    requires fits { length entries.old.entries ≤ size }
    requires unbounded { entries.old.cap ≡ 2 ^ 64 - 1 }
    requires missing { lookup (B.Key.eq key) entries.old.entries ≡ None }
    requires there { IsSome value.old }
    ensures distinct { IsDistinct B.Key.eq (keys_of entries.old.entries) }
    ensures inserts { IfSome value.old (λ v.
        InsertsNew (B.steps backend.now) B.Key.eq size may_flush key v store.old entries.old.entries result store.new entries.new.entries value.new) }
    ensures fits { length entries.new.entries ≤ size }
    ensures cap { entries.new.cap ≡ entries.old.cap }
    ensures keeps { B.keeps store.old store.new }
{
    match make_room(backend, store, entries, size, may_flush) {
        Ok(true) => {}
        refused => return refused,
    }
    let taken = value.take().unwrap();
    let slot = Slot {
        value: taken,
        pins: 0,
    };
    match entries.put(key, slot) {
        Ok(_) => Ok(true),
        Err(AllocFailed { value: (_, slot) }) => {
            let Slot {
                value: taken,
                pins: _,
            } = slot;
            *value = Some(taken);
            Err(CacheError::Memory)
        }
    }
}

// Replaces the value of an entry.
pub(crate) fn replace_entry<B: AsyncLruCacheBackend>(
    backend: &B,
    store: &mut B::Store,
    entries: &mut LruCache<B::Key, Slot<B::Value>>,
    key: B::Key,
    value: &mut Option<B::Value>,
    may_flush: bool,
) -> Result<bool, CacheError<B::Key, B::Error>>
    requires found { IsSome (lookup (B.Key.eq key) entries.old.entries) }
    requires there { IsSome value.old }
    ensures replaces { IfSome (lookup_entry (B.Key.eq key) entries.old.entries)
        (λ e. IfSome value.old (λ v. Replaces (B.steps backend.now) key e
        (remove_entry (B.Key.eq key) entries.old.entries) v may_flush store.old entries.old.entries result store.new
        entries.new.entries value.new)) }
    ensures fits { length entries.new.entries ≡ length entries.old.entries }
    ensures cap { entries.new.cap ≡ entries.old.cap }
    ensures keeps { B.keeps store.old store.new }
{
    if !may_flush {
        return Ok(false);
    }
    entries.promote(&key);
    if let Err(e) = flush_entry(backend, store, entries, key) {
        return Err(CacheError::Backend(e));
    }
    let taken = value.take().unwrap();
    let slot = entries.peek_mut(&key).unwrap();
    slot.value = taken;
    Ok(true)
}

// Flushes each entry, the most recently used first, and returns the first failure.
pub(crate) fn flush_all<B: AsyncLruCacheBackend>(
    backend: &B,
    store: &mut B::Store,
    entries: &mut LruCache<B::Key, Slot<B::Value>>,
) -> Option<B::Error>
    ensures distinct { IsDistinct B.Key.eq (keys_of entries.old.entries) }
    ensures flushed { FlushesAll (B.steps backend.now) store.old entries.old.entries result store.new entries.new.entries }
    ensures cap { entries.new.cap ≡ entries.old.cap }
    ensures keeps { B.keeps store.old store.new }
{
    let mut first = None;
    for _turn in 0..entries.len() {
        let (key, _) = entries.peek_mru().unwrap();
        let key = *key;
        let failure = flush_entry(backend, store, entries, key).err();
        first = first.or(failure);
        entries.demote(&key);
    }
    first
}

// The key of the most recently used pinned entry.
pub(crate) fn first_pinned<K: Copy + Eq + Hash, V>(entries: &LruCache<K, Slot<V>>) -> Option<K>
    ensures first { result ≡ option_map (λ e. e.0) (slice_get (pinned entries.now.entries) 0) }
    ensures distinct { IsDistinct K.eq (keys_of entries.now.entries) }
{
    if entries.len() == 0 {
        return None;
    }
    for (key, slot) in entries {
        if slot.pins > 0 {
            return Some(*key);
        }
    }
    None
}

// The keys of the pinned entries, the most recently used first.
pub(crate) fn pinned_keys<K: Copy + Eq + Hash, V>(
    alloc: Global,
    entries: &LruCache<K, Slot<V>>,
) -> Result<Vec<K>, AllocError>
    ensures ok { IfOk result (λ keys. keys.items ≡ keys_of (pinned entries.now.entries)) }
    ensures err { OnErr result (0 < length (pinned entries.now.entries)) }
{
    let mut keys = Vec::new(alloc);
    for (key, slot) in entries {
        if slot.pins > 0 {
            keys.push(*key)?;
        }
    }
    Ok(keys)
}

// Gives each entry without a pin to the backend.
pub(crate) fn evict_free<B: AsyncLruCacheBackend>(
    backend: &B,
    entries: &mut LruCache<B::Key, Slot<B::Value>>,
)
    ensures distinct { IsDistinct B.Key.eq (keys_of entries.old.entries) }
    ensures evicted { All (λ e. is_pinned e.1 ≡ false → B.evicted backend.now e.0 e.1.value) entries.old.entries }
    ensures entries { entries.new ≡ lru_cache (pinned entries.old.entries) entries.old.cap }
{
    for _turn in 0..entries.len() {
        let (key, slot) = entries.peek_mru().unwrap();
        let key = *key;
        if slot.pins > 0 {
            entries.demote(&key);
        } else {
            evict_entry(backend, entries, key);
        }
    }
}

// Gives one entry to the backend.
pub(crate) fn evict_entry<B: AsyncLruCacheBackend>(
    backend: &B,
    entries: &mut LruCache<B::Key, Slot<B::Value>>,
    key: B::Key,
)
    ensures evicted { IfSome (lookup (B.Key.eq key) entries.old.entries) (λ slot. B.evicted backend.now key slot.value) }
    ensures entries { entries.new ≡ lru_cache (remove_entry (B.Key.eq key) entries.old.entries) entries.old.cap }
{
    if let Some(Slot { value, pins: _ }) = entries.pop(&key) {
        backend.evict(key, value);
    }
}
