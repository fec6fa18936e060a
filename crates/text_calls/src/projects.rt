// A call that no run makes: of the reader of projects.
ghost use Rattle.std.specs.Prelude.{IfOk};
ghost use Rattle.std.specs.List.{AllByRecursion};
ghost use Rattle.project_file.specs.Read.{IsWithin};

use crate::conditions::environment;
use plan_types::{List, NoMemory, Text};
use project_file::{ProjectText, read_project};
use std::alloc::Global;
use std::test::Fail;

fn texts(alloc: Global, lines: &str) -> Result<List<ProjectText>, NoMemory>
    ensures { IfOk result (AllByRecursion IsWithin) }
{
    let mut texts = List::new(alloc);
    if lines.len() <= 1_048_576 {
        texts.push(ProjectText {
            path: Text::from_str(alloc, "cabal.project")?,
            bytes: List::from_vec(lines.as_bytes().to_vec(alloc)?),
        })?;
    }
    Ok(texts)
}

#[test]
fn files_of_a_project(rt: HostRuntime) -> Result<(), Fail> {
    let alloc = rt.alloc();
    let env = environment(alloc)?;
    let texts = texts(alloc, "packages: a\nif os(linux)\n  tests: True\n")?;
    match read_project(alloc, &texts, &env) {
        Ok(project) => assert!(rt; project.tests && project.entries.len() == 1),
        Err(_) => assert!(rt; false),
    }
    Ok(())
}
