use object_store::*;
use std::alloc::Global;
use std::test::Fail;

// Creates an object through the trait's bound, reads a piece of it, lists the keys and deletes it.
fn use_store<S: ObjectStore>(alloc: Global, store: &mut S, key: &Key) -> Option<[usize; 2]> {
    store.create(alloc, key, b"second").ok()?;
    let piece = store.get(alloc, key, 2, 3).ok()?;
    let keys = store.list(alloc, key, None, 10).ok()?;
    store.delete(key).ok()?;
    Some([piece.bytes.len(), keys.len()])
}

#[test]
fn both_stores_keep_objects(rt: HostRuntime) -> Result<(), Fail> {
    let alloc = rt.alloc();
    let key = Key::from_text("a").map_err(|_| "no key")?;
    assert!(rt; use_store(alloc, &mut MemoryStore::vacant(alloc), &key) == Some([3, 1]));
    assert!(rt; use_store(alloc, &mut SteadyStore::vacant(alloc), &key) == Some([3, 1]));
    Ok(())
}

#[test]
fn a_failed_create_lands(rt: HostRuntime) -> Result<(), Fail> {
    let alloc = rt.alloc();
    let key = Key::from_text("splits/1").map_err(|_| "no key")?;
    let mut store = MemoryStore::vacant(alloc);
    store.fail_call(1, Landing::AfterCalls(2))?;
    store.fail_key(key, Landing::Never)?;
    assert!(rt; store.create(alloc, &key, b"late").is_err());
    assert!(rt; store.get(alloc, &key, 0, 9).is_err());
    assert!(rt; store.get(alloc, &key, 0, 9).is_ok());
    Ok(())
}
