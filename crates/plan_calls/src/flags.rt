// A call that no run makes: of the maker of identifiers.
use plan_types::{FlagDecl, FlagSet, List, Text};
use std::test::Fail;
use store_id::names_each_once;

#[test]
fn flags_that_are_named_once(rt: HostRuntime) -> Result<(), Fail> {
    let alloc = rt.alloc();
    let mut declared = List::new(alloc);
    declared.push(FlagDecl {
        line: 1,
        name: Text::from_str(alloc, "f")?,
        default: false,
        manual: false,
    })?;
    let mut flags = List::new(alloc);
    assert!(rt; !names_each_once(&declared, &flags));
    flags.push(FlagSet {
        name: Text::from_str(alloc, "f")?,
        on: true,
    })?;
    assert!(rt; names_each_once(&declared, &flags));
    Ok(())
}
