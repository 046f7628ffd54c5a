// Footers of splits, kept for the next search.

ghost use Rattle.std.specs.Prelude.{◌≡◌, [], nat_eq, IfSome};
ghost use Rattle.std.specs.Map.{lookup, remove_entry};
ghost use Rattle.root_search.specs.Footers.{KeepsMore, entries};

use lru::LruCache;
use split_bundle::Footer;
use std::alloc::Global;
use std::num::NonZeroUsize;

// So many footers are kept at most.
const MOST: usize = 256;

/// The footers of the splits that were asked last, by the numbers of the splits.
#[derive(Drop)]
pub(crate) struct Footers {
    // It is made before the first footer is kept.
    pub(crate) cache: Option<LruCache<u64, Footer>>,
}

// A cache without a footer, if there is memory for it.
fn vacant_cache(alloc: Global) -> Option<LruCache<u64, Footer>>
    ensures { IfSome result (λ cache. cache.entries ≡ []) }
{
    let most = NonZeroUsize::new(MOST)?;
    match LruCache::sparse(alloc, most) {
        Ok(cache) => Some(cache),
        Err(_) => None,
    }
}

// Puts a footer into a cache, if there is memory for it.
fn put(cache: &mut LruCache<u64, Footer>, number: u64, footer: Footer)
    ensures { KeepsMore cache.old.entries cache.new.entries number footer }
{
    let _put = cache.put(number, footer);
}

// A cache with one footer, if there is memory for it.
fn first_kept(alloc: Global, number: u64, footer: Footer) -> Option<LruCache<u64, Footer>>
    ensures { IfSome result (λ cache. KeepsMore [] cache.entries number footer) }
{
    let mut cache = vacant_cache(alloc)?;
    put(&mut cache, number, footer);
    Some(cache)
}

impl Footers {
    pub(crate) fn vacant() -> Footers
        ensures { entries result ≡ [] }
    {
        Footers { cache: None }
    }

    // Takes out the footer of the split with a number, if it is kept.
    pub(crate) fn take(&mut self, number: u64) -> Option<Footer>
        ensures found { result ≡ lookup (nat_eq number) (entries self.old) }
        ensures left { entries self.new ≡ remove_entry (nat_eq number) (entries self.old) }
    {
        match &mut self.cache {
            Some(cache) => cache.pop(&number),
            None => None,
        }
    }

    // Keeps a footer as that of the split that was asked last, if there is memory for it.
    pub(crate) fn keep(&mut self, alloc: Global, number: u64, footer: &Footer)
        ensures { KeepsMore (entries self.old) (entries self.new) number footer.now }
    {
        let Ok(copy) = footer.copy(alloc) else {
            return;
        };
        match &mut self.cache {
            Some(cache) => put(cache, number, copy),
            None => self.cache = first_kept(alloc, number, copy),
        }
    }
}
