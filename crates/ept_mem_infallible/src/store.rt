ghost use Rattle.std.specs.Prelude.{◌≡◌, [], None};
ghost use Rattle.ept_mem.specs.Objects.{store_fails, store_fuse};

use ept_base::{GetError, PutError, Store};
use ept_mem::MemStore;
use std::alloc::Global;

/// A store in memory that never fails.
#[derive(Debug, Drop)]
pub struct SureStore {
    store: MemStore,
    ghost never_fails: { store_fails store ≡ [] },
    ghost has_no_fuse: { store_fuse store ≡ None },
}

impl SureStore {
    ghost use Rattle.std.specs.Prelude.{Some};
    ghost use Rattle.std.specs.Option.{option_copied};
    ghost use Rattle.ept_base.specs.Moves.{IsSettled};
    ghost use Rattle.ept_mem_infallible.specs.Objects.{no_files, store_files_of, store_images_of, store_gets_of};

    /// A settled store without a file. It takes no memory.
    pub fn new(alloc: Global) -> Self
        ensures empty { store_files_of result ≡ no_files }
        ensures settled { IsSettled (Some (store_files_of result)) (store_images_of result) }
        ensures unread { store_gets_of result ≡ 0 }
    {
        SureStore {
            store: MemStore::new(alloc, Vec::new(alloc), Vec::new(alloc)),
        }
    }

    /// The bytes that the name reads as, if it is there.
    pub fn file(&self, name: &str) -> Option<&[u8]>
        ensures { option_copied result ≡ store_files_of self.now name.now }
    {
        self.store.file(name)
    }
}

impl Store for SureStore {
    ghost use Rattle.std.specs.Prelude.{Some};
    ghost use Rattle.ept_mem.specs.Named.{content_of};
    ghost use Rattle.ept_mem.specs.Crash.{image_counts, image_only, reads_image};
    ghost use Rattle.ept_mem_infallible.specs.Objects.{store_files_of, store_images_of, store_images_since_of, store_moment_of, store_gets_of};

    ghost files = { λ store. Some (store_files_of store) };

    ghost may_leave = { store_images_of };

    ghost moment = { store_moment_of };

    ghost image_since = { store_images_since_of };

    ghost faults = { λ _. 0 };

    ghost gets = { store_gets_of };

    ghost counts_now = { λ store t image le now. image_counts _ _ t image le now };

    ghost only_now = { λ store image since. image_only _ _ image since };

    ghost reads_an_image = { λ store. reads_image (content_of store.store.first.items) store.store.calls.items };

    fn get(&mut self, name: &str, into: &mut Vec<u8>) -> Result<bool, GetError> {
        self.store.get(name, into)
    }

    fn put(&mut self, name: &str, bytes: &[u8]) -> Result<(), PutError> {
        self.store.put(name, bytes)
    }

    fn remove(&mut self, name: &str) -> Result<(), PutError> {
        self.store.remove(name)
    }

    fn sync(&mut self) -> Result<(), PutError> {
        self.store.sync()
    }
}
