// The project of the parts of all files.
ghost use Rattle.std.specs.Prelude.{◌≡◌, ◌++◌, ◌∷◌, [], List, OnOk};
ghost use Rattle.project_file.specs.Project.{AddsParts, entries_at, placed_all, placed_at, project_from, with_switch};

use crate::part::{ProjectPart, ProjectSaid, Switch};
use plan_types::{Limit, List, NoMemory, Project, ProjectEntry, Text, Warning};
use std::alloc::Global;

/// The project of no parts, with all default values.
pub(crate) fn nothing(alloc: Global) -> Project
    ensures { result ≡ project_from [] }
{
    Project {
        entries: List::new(alloc),
        extra: List::new(alloc),
        constraints: List::new(alloc),
        preferences: List::new(alloc),
        newer: List::new(alloc),
        older: List::new(alloc),
        tests: false,
        benchmarks: false,
        limit: Limit::At(4000),
        prefer_oldest: false,
        boot_installs: false,
        warnings: List::new(alloc),
    }
}

/// Adds the parts of a file.
pub(crate) fn take_file(
    project: &mut Project,
    path: &Text,
    parts: List<ProjectPart>,
) -> Result<(), NoMemory>
    ensures { OnOk result (AddsParts (placed_all path.now parts) project.old project.new) }
{
    for part in parts.into_vec() {
        take(project, path, part)?;
    }
    Ok(())
}

fn take(project: &mut Project, path: &Text, part: ProjectPart) -> Result<(), NoMemory>
    ensures { OnOk result (AddsParts (placed_at path.now part ∷ []) project.old project.new) }
{
    let ProjectPart { line, said } = part;
    match said {
        ProjectSaid::Entries { texts, optional } => {
            push_entries(&mut project.entries, path, line, texts, optional)
        }
        ProjectSaid::Extra(mut found) => project.extra.append(&mut found),
        ProjectSaid::Constraints(mut found) => project.constraints.append(&mut found),
        ProjectSaid::Preferences(mut found) => project.preferences.append(&mut found),
        ProjectSaid::Newer(mut found) => project.newer.append(&mut found),
        ProjectSaid::Older(mut found) => project.older.append(&mut found),
        ProjectSaid::Switch { which, on } => {
            turn(project, which, on);
            Ok(())
        }
        ProjectSaid::Limit(limit) => {
            project.limit = limit;
            Ok(())
        }
        ProjectSaid::Warning(word) => warn(&mut project.warnings, path, line, word),
        ProjectSaid::Bad(_) => Ok(()),
    }
}

fn push_entries(
    entries: &mut List<ProjectEntry>,
    path: &Text,
    line: u32,
    texts: List<Text>,
    optional: bool,
) -> Result<(), NoMemory>
    ensures { OnOk result (entries.new ≡ entries.old ++ entries_at path.now line texts optional) }
{
    for text in texts.into_vec() {
        let path = path.copy()?;
        entries.push(ProjectEntry {
            path,
            line,
            text,
            optional,
        })?;
    }
    Ok(())
}

fn warn(warnings: &mut List<Warning>, path: &Text, line: u32, word: Text) -> Result<(), NoMemory>
    ensures { OnOk result (warnings.new ≡ warnings.old ++ record { path = path.now; line = line; word = word } ∷ []) }
{
    let path = path.copy()?;
    warnings.push(Warning { path, line, word })
}

fn turn(project: &mut Project, which: Switch, on: bool)
    ensures { project.new ≡ with_switch which on project.old }
{
    match which {
        Switch::Tests => project.tests = on,
        Switch::Benchmarks => project.benchmarks = on,
        Switch::PreferOldest => project.prefer_oldest = on,
        Switch::BootInstalls => project.boot_installs = on,
    }
}
