// The policy and the instances (the first letter of the origin, and the version), and the places of these in order. In
// a run a local package is the only instance of its name.
use plan_types::{Instance, List, Origin, Text, TextFault};
use preferences::{Policy, order};
use std::alloc::Global;
use std::test::Fail;
use version_range::read_version;

pub const CASES: &str = "\
latest  => []
latest s1 l1 i1 l1 s1 => [2, 0, 1, 3, 4]
installed s1 l1 i1 l1 s1 => [2, 0, 1, 3, 4]
oldest i1 i1 s1 i1 => [0, 1, 3, 2]
";

fn instance(alloc: Global, word: &str) -> Result<Instance, TextFault> {
    let numbers = word.trim_start_matches(|c: char| c.is_ascii_lowercase());
    Ok(Instance {
        name: Text::from_str(alloc, "a")?,
        version: read_version(alloc, numbers.as_bytes())?,
        origin: match word.as_bytes().first() {
            Some(b'l') => Origin::Local,
            Some(b'i') => Origin::Installed,
            _ => Origin::Source,
        },
        unit: Text::new(alloc),
    })
}

pub fn answer(alloc: Global, case: &str) -> Result<String, Fail> {
    let (word, rest) = case.split_once(' ').ok_or("no instances")?;
    let policy = match word {
        "latest" => Policy::Latest,
        "installed" => Policy::Installed,
        _ => Policy::Oldest,
    };
    let mut instances = List::new(alloc);
    for word in rest.split_whitespace() {
        instances.push(instance(alloc, word)?)?;
    }
    let places = order(alloc, &instances, &List::new(alloc), policy)?;
    Ok(format!(in alloc; "{:?}", places.as_slice())?)
}
