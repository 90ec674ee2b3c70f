//! Puts of which one may want memory: the others are done. `checks/allocations store_tests` runs them with each allocation
//! refused in turn.

use crate::sealed_chunk_tests::small_geometry;
use dir_walks::test_caller::Step;
use dir_walks::test_store::Store;
use std::alloc::Global;
use std::test::Fail;
use store_map::{Call, Content, Name};
use version_seal::Book;

// A put under this number, which ends at the first step that wants memory. Whether it is done.
fn is_put(store: &mut Store<'_>, number: u32, call: &Call) -> bool {
    if store.first(Step::Look { number, call }).is_err() {
        return false;
    }
    if store.first(Step::Draw).is_ok() && store.first(Step::Commit).is_ok() {
        return true;
    }
    let _ended = store.first(Step::End);
    false
}

// How many of three puts are done.
fn puts(alloc: Global, store: &mut Store<'_>) -> Result<usize, Fail> {
    let name = Name::new(alloc, "a")?;
    let content = Content::Ramp {
        first: 1,
        length: 20,
    };
    let call = Call::Put { name, content };
    let mut done: usize = 0;
    for number in 0..3 {
        if is_put(store, number, &call) {
            done = done.saturating_add(1);
        }
    }
    Ok(done)
}

#[test]
fn puts_after_want_of_memory(rt: HostRuntime) -> Result<(), Fail> {
    let (book, sealer) = Book::free(rt.alloc(), small_geometry()?)?;
    let mut store = Store::open(rt.alloc(), &book, sealer, 64)?;
    let done = puts(rt.alloc(), &mut store);
    store.leave();
    if done? < 2 {
        return Err(Fail::from("want of memory lasts"));
    }
    Ok(())
}
