// The tables of calls. They use no contract of the calls.
use crate::{conditions, entries, outlooks, printed};
use call_driver::{CallTable, others};
use std::alloc::Global;
use std::process::Abort;
use std::test::Fail;

#[derive(Clone, Copy)]
enum TextTable {
    Printed,
    Conditions,
    Outlooks,
    Entries,
}

impl CallTable for TextTable {
    fn cases(&self) -> &'static str {
        match self {
            TextTable::Printed => printed::CASES,
            TextTable::Conditions => conditions::CASES,
            TextTable::Outlooks => outlooks::CASES,
            TextTable::Entries => entries::CASES,
        }
    }

    fn answer(&self, alloc: Global, call: &str) -> Result<String, Fail> {
        match self {
            TextTable::Printed => printed::answer(alloc, call),
            TextTable::Conditions => conditions::answer(alloc, call),
            TextTable::Outlooks => outlooks::answer(alloc, call),
            TextTable::Entries => entries::answer(alloc, call),
        }
    }
}

fn assert_no_others(rt: &impl Abort, alloc: Global, tables: &[TextTable]) -> Result<(), Fail> {
    for table in tables {
        assert_eq!(rt; others(alloc, table)?.as_str(), "");
    }
    Ok(())
}

#[test]
fn texts_and_conditions(rt: HostRuntime) -> Result<(), Fail> {
    let tables = [
        TextTable::Printed,
        TextTable::Conditions,
        TextTable::Outlooks,
        TextTable::Entries,
    ];
    assert_no_others(&rt, rt.alloc(), &tables)
}
