//! Storages of version 1.

use core_store::PlaneCore;
use ledger_rows::read_storage;
use std::alloc::Global;
use std::test::Fail;

/// Whether `count` equal bytes are the storage of a picture of version 1.
fn is_storage(alloc: Global, count: usize, byte: u8) -> Result<bool, Fail> {
    let storage = vec![in alloc; byte; count]?;
    Ok(read_storage::<PlaneCore>(alloc, &storage)?.is_some())
}

#[test]
fn bytes_that_are_storage_and_others(rt: HostRuntime) -> Result<(), Fail> {
    for (count, byte, wanted) in [
        (1400, 127, true),
        (4000, 0, true),
        (16_000, 127, true),
        (1400, 128, false),
        (1399, 0, false),
        (66_936, 0, false),
    ] {
        assert_eq!(rt;
            is_storage(rt.alloc(), count, byte)?,
            wanted,
            "{count} of {byte}"
        );
    }
    Ok(())
}
