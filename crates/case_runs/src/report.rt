// The report on the cases of a file.
use crate::answer::{Faults, answer_over, mem_folder, other_than_wanted};
use crate::case::{Case, Run, case_of};
use crate::failing::{Failing, other_failing};
use crate::real_folder::{clear, folder_at, write_files};
use crate::rows::cases_of;
use outside_folder::{Folder, MemFolder};
use plan_types::NoMemory;
use std::alloc::Global;
use std::io::{self, ErrorKind};

#[derive(Drop)]
struct Report {
    passed: u64,
    all: u64,
    others: String,
}

/// How many runs of a file of cases passed, and below that the answers of the others.
pub fn report_of(rt: &HostRuntime, subject: &str, text: &str) -> io::Result<String> {
    let mut report = Report {
        passed: 0,
        all: 0,
        others: String::new(rt.alloc()),
    };
    for written in text.split("\n=== ").skip(1) {
        try_cases(rt, written, &mut report)?;
    }
    shown(rt.alloc(), subject, &report)
}

fn shown(alloc: Global, subject: &str, report: &Report) -> io::Result<String> {
    let (passed, all, others) = (report.passed, report.all, report.others.as_str());
    let text = format!(in alloc; "{subject}: {passed} of {all}\n{others}")?;
    Ok(text)
}

fn try_cases(rt: &HostRuntime, written: &str, report: &mut Report) -> io::Result<()> {
    let cases = with_memory(cases_of(rt.alloc(), written))?;
    for case in cases.iter() {
        let case = with_memory(case_of(rt.alloc(), case.as_str()))?;
        try_case(rt, case, report)?;
    }
    Ok(())
}

fn try_case(rt: &HostRuntime, case: Case, report: &mut Report) -> io::Result<()> {
    try_failing(rt.alloc(), &case, report)?;
    let is_real = is_small(&case);
    if is_real {
        write_files(rt, &case)?;
    }
    try_over_folders(rt, case, is_real, report)?;
    if is_real {
        clear(rt)?;
    }
    Ok(())
}

// Whether a case is run over a folder of the system too. Many or large files take long to write; `bin/try-cases` runs
// their cases.
fn is_small(case: &Case) -> bool {
    let files = case.files.as_slice();
    files.len() <= 100 && files.iter().all(|file| file.bytes.len() <= 2_000_000)
}

fn is_whole(run: &Run) -> bool {
    matches!(run.failing, Failing::Nothing)
}

// The runs with faults, over folders in memory.
fn try_failing(alloc: Global, case: &Case, report: &mut Report) -> io::Result<()> {
    for run in case.runs.iter().filter(|run| !is_whole(*run)) {
        let other = with_memory(other_failing(alloc, case.files.as_slice(), run))?;
        count(
            alloc,
            report,
            case.name.as_str(),
            other.as_ref().map(|other| other.as_str()),
        )?;
    }
    Ok(())
}

fn try_over_folders(
    rt: &HostRuntime,
    case: Case,
    is_real: bool,
    report: &mut Report,
) -> io::Result<()> {
    let Case {
        name,
        files,
        links,
        runs,
    } = case;
    if !links.is_empty() {
        return try_runs(rt, name.as_str(), runs.as_slice(), None, is_real, report);
    }
    match with_memory(mem_folder(rt.alloc(), files, 0))? {
        Some(folder) => try_runs(
            rt,
            name.as_str(),
            runs.as_slice(),
            Some(folder),
            is_real,
            report,
        ),
        None => count(
            rt.alloc(),
            report,
            name.as_str(),
            Some("its files make no folder\n"),
        ),
    }
}

fn try_runs(
    rt: &HostRuntime,
    name: &str,
    runs: &[Run],
    mut folder: Option<MemFolder>,
    is_real: bool,
    report: &mut Report,
) -> io::Result<()> {
    for run in runs.iter().filter(|run| is_whole(*run)) {
        let mut other = with_memory(mem_answer(rt.alloc(), run, &mut folder))?;
        if is_real && other.is_none() {
            other = with_memory(real_answer(rt, run))?;
        }
        count(
            rt.alloc(),
            report,
            name,
            other.as_ref().map(|other| other.as_str()),
        )?;
    }
    Ok(())
}

fn mem_answer(
    alloc: Global,
    run: &Run,
    folder: &mut Option<MemFolder>,
) -> Result<Option<String>, NoMemory> {
    match folder {
        Some(folder) => other_answer(alloc, run, folder),
        None => Ok(None),
    }
}

fn real_answer(rt: &HostRuntime, run: &Run) -> Result<Option<String>, NoMemory> {
    other_answer(rt.alloc(), run, &mut folder_at(rt)?)
}

// The answer of a run over a folder, if it is wrong.
fn other_answer<F: Folder>(
    alloc: Global,
    run: &Run,
    folder: &mut F,
) -> Result<Option<String>, NoMemory> {
    let found = answer_over(alloc, run, folder, Faults::NONE)?;
    other_than_wanted(alloc, run, &found)
}

fn count(alloc: Global, report: &mut Report, name: &str, other: Option<&str>) -> io::Result<()> {
    report.all = report.all.saturating_add(1);
    match other {
        None => report.passed = report.passed.saturating_add(1),
        Some(other) => {
            let told = format!(in alloc; "  {name}\n{other}")?;
            report.others.push_str(told.as_str())?;
        }
    }
    Ok(())
}

fn with_memory<T>(made: Result<T, NoMemory>) -> io::Result<T> {
    match made {
        Ok(value) => Ok(value),
        Err(NoMemory) => Err(io::Error::from(ErrorKind::OutOfMemory)),
    }
}
