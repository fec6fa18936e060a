// The tables of calls. They use no contract of the calls.
use crate::{answers, builds, graphs, orders, searches};
use call_driver::{CallTable, others};
use std::alloc::Global;
use std::process::Abort;
use std::test::Fail;

#[derive(Clone, Copy)]
enum PlanTable {
    Graphs,
    Orders,
    Answers,
    Builds,
    Searches,
}

impl CallTable for PlanTable {
    fn cases(&self) -> &'static str {
        match self {
            PlanTable::Graphs => graphs::CASES,
            PlanTable::Orders => orders::CASES,
            PlanTable::Answers => answers::CASES,
            PlanTable::Builds => builds::CASES,
            PlanTable::Searches => searches::CASES,
        }
    }

    fn answer(&self, alloc: Global, call: &str) -> Result<String, Fail> {
        match self {
            PlanTable::Graphs => graphs::answer(alloc, call),
            PlanTable::Orders => orders::answer(alloc, call),
            PlanTable::Answers => answers::answer(alloc, call),
            PlanTable::Builds => builds::answer(alloc, call),
            PlanTable::Searches => searches::answer(alloc, call),
        }
    }
}

fn assert_no_others(rt: &impl Abort, alloc: Global, tables: &[PlanTable]) -> Result<(), Fail> {
    for table in tables {
        assert_eq!(rt; others(alloc, table)?.as_str(), "");
    }
    Ok(())
}

#[test]
fn graphs_of_many_nodes(rt: HostRuntime) -> Result<(), Fail> {
    let tables = [PlanTable::Graphs];
    assert_no_others(&rt, rt.alloc(), &tables)
}

#[test]
fn plans_and_searches(rt: HostRuntime) -> Result<(), Fail> {
    let tables = [
        PlanTable::Orders,
        PlanTable::Answers,
        PlanTable::Builds,
        PlanTable::Searches,
    ];
    assert_no_others(&rt, rt.alloc(), &tables)
}
