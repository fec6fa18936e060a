// The tables of calls. They use no contract of the calls.
use crate::{listings, memory, sinks};
use call_driver::{CallTable, others};
use std::alloc::Global;
use std::process::Abort;
use std::test::Fail;

#[derive(Clone, Copy)]
enum FolderTable {
    Memory,
    Sinks,
    Listings,
}

impl CallTable for FolderTable {
    fn cases(&self) -> &'static str {
        match self {
            FolderTable::Memory => memory::CASES,
            FolderTable::Sinks => sinks::CASES,
            FolderTable::Listings => listings::CASES,
        }
    }

    fn answer(&self, alloc: Global, call: &str) -> Result<String, Fail> {
        match self {
            FolderTable::Memory => memory::answer(alloc, call),
            FolderTable::Sinks => sinks::answer(alloc, call),
            FolderTable::Listings => listings::answer(alloc, call),
        }
    }
}

fn assert_no_others(rt: &impl Abort, alloc: Global, tables: &[FolderTable]) -> Result<(), Fail> {
    for table in tables {
        assert_eq!(rt; others(alloc, table)?.as_str(), "");
    }
    Ok(())
}

#[test]
fn folders_and_sinks(rt: HostRuntime) -> Result<(), Fail> {
    let tables = [
        FolderTable::Memory,
        FolderTable::Sinks,
        FolderTable::Listings,
    ];
    assert_no_others(&rt, rt.alloc(), &tables)
}
