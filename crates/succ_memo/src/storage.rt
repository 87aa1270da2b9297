//! The cache that a memo stores its entries in: each under a copy of its key.
ghost use Rattle.std.specs.Prelude.{◌≡◌, [], ◌∷◌, None, IfOk, IfErr, OnOk, OnErr};
ghost use Rattle.std.specs.Arc.{arc_value};
ghost use Rattle.std.specs.Map.{lookup_entry};
ghost use Rattle.std.specs.Option.{option_map};
ghost use Rattle.lru.specs.LruCache.{lru_cache, promoted};
ghost use Rattle.succ_memo.specs.Memo.{entries_kept, entries_after_put};
ghost use Rattle.succ_memo.specs.Stored.{bound_of, shown_pairs, cache_pairs, IsStored, IsStoredIn};

use crate::relation::{Held, Relation};
use lru::LruCache;
use std::alloc::{AllocError, Global};
use std::num::NonZeroUsize;
use std::sync::Arc;

/// Entries under copies of their keys, the most recently used first.
pub(crate) type Cache<R> = LruCache<<R as Relation>::Key, Arc<Held<R>>>;

/// A cache without an entry, which has room for as many as the bound says.
pub(crate) fn empty_cache<R: Relation>(
    alloc: Global,
    most: Option<NonZeroUsize>,
) -> Result<Cache<R>, AllocError>
    ensures empty { IfOk result (λ cache. cache.entries ≡ []) }
    ensures stored { IfOk result (IsStored R.Key.eq R.holds most) }
{
    let cache = LruCache::sparse(alloc, most.unwrap_or(NonZeroUsize::MAX))?;
    // What a cache keeps of its own is known once it is read.
    cache.len();
    Ok(cache)
}

// The entry of a key, shared once more and moved to the front.
fn find_in<R: Relation>(
    cache: &mut Cache<R>,
    most: Option<NonZeroUsize>,
    key: &R::Key,
) -> Result<Option<Arc<Held<R>>>, AllocError>
    requires { IsStored R.Key.eq R.holds most cache.old }
    ensures found { IfOk result (λ entry. option_map arc_value entry
        ≡ lookup_entry (R.Key.eq key.now) (shown_pairs cache.old.entries)) }
    ensures moved { OnOk result (cache.new
        ≡ lru_cache (promoted (R.Key.eq key.now) cache.old.entries) cache.old.cap) }
    ensures err { OnErr result (cache.new ≡ cache.old) }
    ensures stored { IsStored R.Key.eq R.holds most cache.new }
{
    let Some(entry) = cache.peek(key) else {
        return Ok(None);
    };
    let shared = Arc::try_clone(entry)?;
    cache.promote(key);
    // What a cache keeps of its own is known once it is read.
    cache.len();
    Ok(Some(shared))
}

/// The entry of a key, shared once more and moved to the front.
pub(crate) fn find<R: Relation>(
    cache: &mut Option<Cache<R>>,
    most: Option<NonZeroUsize>,
    key: &R::Key,
) -> Result<Option<Arc<Held<R>>>, AllocError>
    requires { IsStoredIn R.Key.eq R.holds most cache.old }
    ensures found { IfOk result (λ entry. option_map arc_value entry
        ≡ lookup_entry (R.Key.eq key.now) (cache_pairs cache.old)) }
    ensures moved { OnOk result (cache_pairs cache.new
        ≡ promoted (R.Key.eq key.now) (cache_pairs cache.old)) }
    ensures err { OnErr result (cache_pairs cache.new ≡ cache_pairs cache.old) }
    ensures stored { IsStoredIn R.Key.eq R.holds most cache.new }
{
    match cache {
        Some(cache) => find_in(cache, most, key),
        None => Ok(None),
    }
}

// Puts an entry first under a copy of its key, which has none.
fn put_first<R: Relation>(
    cache: &mut Cache<R>,
    most: Option<NonZeroUsize>,
    alloc: Global,
    entry: Arc<Held<R>>,
) -> Result<(), Arc<Held<R>>>
    requires stored { IsStored R.Key.eq R.holds most cache.old }
    requires absent { lookup_entry (R.Key.eq (arc_value entry).0) cache.old.entries ≡ None }
    ensures ok { OnOk result (shown_pairs cache.new.entries
        ≡ arc_value entry ∷ entries_kept (bound_of most) (shown_pairs cache.old.entries)) }
    ensures err { IfErr result (λ back. (cache.new ≡ cache.old) × (back ≡ entry)) }
    ensures stored { IsStored R.Key.eq R.holds most cache.new }
{
    let Ok(key) = R::copy_key(alloc, entry.key()) else {
        return Err(entry);
    };
    match cache.put(key, entry) {
        Ok(_) => {
            // What a cache keeps of its own is known once it is read.
            cache.len();
            Ok(())
        }
        Err(fault) => Err(fault.value.1),
    }
}

/// Puts an entry first where its key has none. An `Err` hands it back, for want of memory.
pub(crate) fn store<R: Relation>(
    cache: &mut Option<Cache<R>>,
    most: Option<NonZeroUsize>,
    alloc: Global,
    entry: Arc<Held<R>>,
) -> Result<(), Arc<Held<R>>>
    requires { IsStoredIn R.Key.eq R.holds most cache.old }
    ensures ok { OnOk result (cache_pairs cache.new
        ≡ entries_after_put R.Key.eq (bound_of most) (cache_pairs cache.old) (arc_value entry)) }
    ensures err { IfErr result (λ back.
        (cache_pairs cache.new ≡ cache_pairs cache.old) × (back ≡ entry)) }
    ensures stored { IsStoredIn R.Key.eq R.holds most cache.new }
{
    match cache {
        Some(cache) => {
            if cache.contains(entry.key()) {
                return Ok(());
            }
            put_first(cache, most, alloc, entry)
        }
        None => {
            let Ok(mut made) = empty_cache(alloc, most) else {
                return Err(entry);
            };
            let stored = put_first(&mut made, most, alloc, entry);
            *cache = Some(made);
            stored
        }
    }
}
