// The order of keys.

ghost use Rattle.std.specs.Prelude.{◌≡◌};
ghost use Rattle.object_store.specs.Key.{IsKey};
ghost use Rattle.object_store.specs.Store.{is_behind};

use object_store::Key;

/// Whether a key stands behind another, where there is one.
pub(crate) fn is_behind(behind: &Option<Key>, key: &Key) -> bool
    ensures behind { result ≡ is_behind behind.now key.now }
    ensures key { IsKey key.now }
{
    let bytes = key.as_bytes();
    match behind {
        Some(before) => before.as_bytes().cmp(bytes).is_lt(),
        None => true,
    }
}
