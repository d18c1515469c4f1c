//! Stores in memory, and what a crash leaves of them.

use crate::memory::named;
use ept_base::{GetError, PutError, Store, put_kept};
use ept_mem::{Crash, MemStore};
use std::alloc::Global;
use std::process::Abort;
use std::test::Fail;

// What a store holds from its fifth call on, of which the fifth to the eighth fail.
fn four_calls_fail_and_a_fifth_does_not(rt: &impl Abort, store: &mut MemStore, into: &mut Vec<u8>) {
    assert!(rt; store.get("a", into) == Err(GetError::Failed));
    assert!(rt; into.is_empty());
    assert!(rt; store.sync() == Err(PutError::Failed));
    assert!(rt; store.file("a") == Some(b"three".as_slice()));
    assert!(rt; store.put("c", b"four") == Err(PutError::Failed));
    assert!(rt; store.file("c").is_none());
    assert!(rt; store.remove("a") == Err(PutError::Failed));
    assert!(rt; store.file("a").is_none());
    assert!(rt; store.put("c", b"") == Ok(()));
    assert!(rt; store.file("c") == Some(b"".as_slice()));
}

#[test]
fn a_store_reads_as_it_was_written(rt: HostRuntime) -> Result<(), Fail> {
    let alloc = rt.alloc();
    let mut into = Vec::from_slice(alloc, b"before")?;
    let fails = vec![in alloc; 5, 6, 7, 8]?;
    let files = named(alloc, &[("a", b"one"), ("b", b"two")])?;
    let mut store = MemStore::new(alloc, files, fails);
    assert!(rt; store.get("a", &mut into) == Ok(true));
    assert!(rt; into.as_slice() == b"one".as_slice());
    assert!(rt; store.put("a", b"three") == Ok(()));
    assert!(rt; store.remove("b") == Ok(()));
    assert!(rt; store.sync() == Ok(()));
    assert!(rt; store.get("b", &mut into) == Ok(false));
    assert!(rt; into.is_empty());
    assert!(rt; store.file("a") == Some(b"three".as_slice()));
    assert!(rt; store.file("b").is_none());
    four_calls_fail_and_a_fifth_does_not(&rt, &mut store, &mut into);
    Ok(())
}

// A store in which `a` was put and flushed. Then `a` and `c` were put and `b` was removed. The fuse passes this number
// of those calls.
fn burnt(alloc: Global, passes: u64) -> Result<MemStore, Fail> {
    let files = named(alloc, &[("a", b"one"), ("b", b"two")])?;
    let mut stable = MemStore::new(alloc, files, Vec::new(alloc));
    put_kept(&mut stable, "a", b"three")?;
    let mut store = stable.with_fuse(passes);
    let _ = store.put("a", b"four");
    let _ = store.remove("b");
    let _ = store.put("c", b"five");
    Ok(store)
}

// How many calls passed, the crash, and what `a`, `b` and `c` are after it.
type Crashed = (
    u64,
    Crash,
    Option<&'static [u8]>,
    Option<&'static [u8]>,
    Option<&'static [u8]>,
);

static CRASHES: [Crashed; 10] = [
    (3, Crash::Old, Some(b"three"), Some(b"two"), None),
    (3, Crash::New, Some(b"four"), None, Some(b"five")),
    (3, Crash::Absent, None, None, None),
    (3, Crash::Junk, Some(&[255]), Some(&[255]), Some(&[255])),
    (2, Crash::New, Some(b"four"), None, None),
    (1, Crash::New, Some(b"four"), None, None),
    (1, Crash::Old, Some(b"three"), Some(b"two"), None),
    (1, Crash::Junk, Some(&[255]), Some(&[255]), Some(&[255])),
    (0, Crash::New, None, None, None),
    (0, Crash::Old, Some(b"three"), Some(b"two"), None),
];

#[test]
fn a_crash_leaves_one_image(rt: HostRuntime) -> Result<(), Fail> {
    for (passes, how, a, b, c) in &CRASHES {
        let mut store = burnt(rt.alloc(), *passes)?.crash(*how);
        assert!(rt; store.file("a") == *a);
        assert!(rt; store.file("b") == *b);
        assert!(rt; store.file("c") == *c);
        assert!(rt; store.put("d", b"six") == Ok(()));
        let again = store.crash(Crash::Old);
        assert!(rt; again.file("d").is_none());
        assert!(rt; again.crash(Crash::Absent).file("a") == *a);
    }
    Ok(())
}

#[test]
fn a_fuse_passes_so_many_calls(rt: HostRuntime) -> Result<(), Fail> {
    for passes in 0..5 {
        expect_passes(&rt, rt.alloc(), passes)?;
    }
    Ok(())
}

// The first call fails whatever the fuse passes, and those after it from the fuse on.
fn expect_passes(rt: &impl Abort, alloc: Global, passes: u64) -> Result<(), Fail> {
    let mut into = Vec::new(alloc);
    let fails = vec![in alloc; 0]?;
    let mut store = MemStore::new(alloc, named(alloc, &[("a", b"one")])?, fails).with_fuse(passes);
    assert!(rt; store.get("a", &mut into) == Err(GetError::Failed));
    assert!(rt; store.get("a", &mut into).is_ok() == (1 < passes));
    assert!(rt; store.put("b", b"two").is_ok() == (2 < passes));
    assert!(rt; store.sync().is_ok() == (3 < passes));
    assert!(rt; store.remove("a").is_ok() == (4 < passes));
    assert!(rt; store.sync() == Err(PutError::Failed));
    Ok(())
}
