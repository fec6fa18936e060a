// A folder's files, the entries of a project, and the number of calls on the folder that these take. `!` is for a
// folder without `cabal.project`; an entry with `?` may match nothing. Of the names without a star, those in `.cabal`
// need a listing.
use outside_folder::{MemFile, MemFolder};
use plan_types::{Halt, Limit, List, NoMemory, Project, ProjectEntry, Text};
use project_paths::find_packages;
use std::alloc::Global;
use std::test::Fail;

pub const CASES: &str = "\
x/p.cabal; x => 1
x/p.cabal y/p.cabal; x,y,x/*.cabal,./x => 2
main.cabal x/p.cabal; !,x,x => 2
x/y/p.cabal x/z/q.cabal; x/y,x/z => 2
x/p.cabal; x/p.cabal => 1
x.cabal/p.cabal; x.cabal => 2
x/y/p.cabal; x/y/*.cabal => 1
x/p.cabal y/p.cabal; */p.cabal => 3
a.txt b/p.cabal; * => 2
x/p.cabal; x/p.cabal/*,x => 1
x/p.cabal; gone,x => 1
x/p.cabal; gone.cabal,x => 1
x/p.cabal; gone.txt?,x//p.cabal?,x => 2
x/p.cabal; /x,x => 0
";

fn entry(alloc: Global, text: &str) -> Result<ProjectEntry, NoMemory> {
    let name = text.trim_end_matches('?');
    Ok(ProjectEntry {
        path: Text::from_str(alloc, "e")?,
        line: 2,
        text: Text::from_str(alloc, name)?,
        optional: text.ends_with('?'),
    })
}

// A project with these entries and nothing else.
fn project(alloc: Global, texts: &str) -> Result<Project, NoMemory> {
    let mut entries = List::new(alloc);
    for text in texts.split(',') {
        if text != "!" {
            entries.push(entry(alloc, text)?)?;
        }
    }
    Ok(Project {
        entries,
        extra: List::new(alloc),
        constraints: List::new(alloc),
        preferences: List::new(alloc),
        newer: List::new(alloc),
        older: List::new(alloc),
        tests: false,
        benchmarks: false,
        limit: Limit::Unlimited,
        prefer_oldest: false,
        boot_installs: false,
        warnings: List::new(alloc),
    })
}

// A folder of empty files at these paths, on which this call fails.
fn folder(alloc: Global, paths: &str, failing: u64) -> Result<MemFolder, Fail> {
    let mut files = List::new(alloc);
    for path in paths.split(' ') {
        files.push(MemFile {
            path: Text::from_str(alloc, path)?,
            bytes: List::new(alloc),
        })?;
    }
    let fail_at = List::from_vec([failing].to_vec(alloc)?);
    Ok(MemFolder::new(alloc, files, fail_at)?)
}

fn is_made(alloc: Global, paths: &str, texts: &str, call: u64) -> Result<bool, Fail> {
    let mut folder = folder(alloc, paths, call)?;
    let project = project(alloc, texts)?;
    let found = find_packages(alloc, &project, texts.starts_with('!'), &mut folder);
    Ok(matches!(found, Err(Halt::Failed)))
}

pub fn answer(alloc: Global, case: &str) -> Result<String, Fail> {
    let (paths, texts) = case.split_once("; ").ok_or("no entries")?;
    for call in 0..20 {
        if !is_made(alloc, paths, texts, call + 1)? {
            return Ok(format!(in alloc; "{call}")?);
        }
    }
    Ok(String::from_str(alloc, "many")?)
}
