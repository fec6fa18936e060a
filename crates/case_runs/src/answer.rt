// The answer of a run, and its difference from the wanted one.
use crate::case::{Program, Run};
use modern_files::rewrite_files;
use outside_folder::{Folder, MemFault, MemFile, MemFolder, MemSink};
use plan_command::run;
use plan_types::{List, NoMemory};
use sha2::{Digest, Sha256};
use std::alloc::Global;

/// The call on the folder and the write that fail, counted from 1 (0: none), the most bytes of a write, and the sink's
/// room in bytes.
#[derive(Clone, Copy)]
pub struct Faults {
    pub call: u64,
    pub write: u64,
    pub most: usize,
    pub room: usize,
}

impl Faults {
    /// No call and no write fails.
    pub const NONE: Faults = Faults {
        call: 0,
        write: 0,
        most: 8_000_000,
        room: 8_000_000,
    };
}

/// The exit status of a run, and its output.
#[derive(Drop)]
pub struct CaseAnswer {
    pub status: u8,
    pub output: String,
}

fn numbered(alloc: Global, number: u64) -> Result<List<u64>, NoMemory> {
    let mut numbers = List::new(alloc);
    numbers.push(number)?;
    Ok(numbers)
}

/// A folder in memory on which this call fails, or none if its files are no tree.
pub fn mem_folder(
    alloc: Global,
    files: List<MemFile>,
    call: u64,
) -> Result<Option<MemFolder>, NoMemory> {
    match MemFolder::new(alloc, files, numbered(alloc, call)?) {
        Ok(folder) => Ok(Some(folder)),
        Err(MemFault::BadTree) => Ok(None),
        Err(MemFault::NoMemory) => Err(NoMemory),
    }
}

/// The answer of a run over a folder, with these faults of its sink.
pub fn answer_over<F: Folder>(
    alloc: Global,
    run: &Run,
    folder: &mut F,
    faults: Faults,
) -> Result<CaseAnswer, NoMemory> {
    let fail_at = numbered(alloc, faults.write)?;
    let mut out = MemSink::new(alloc, faults.room, faults.most, fail_at)?;
    let status = status_of(alloc, run, folder, &mut out);
    let output = text_of(alloc, out.bytes())?;
    Ok(CaseAnswer { status, output })
}

// Callers of this function know no clause of `run`. Words that aren't UTF-8 print the usage line, as they do in the
// programs.
fn status_of<F: Folder>(alloc: Global, of: &Run, folder: &mut F, out: &mut MemSink) -> u8 {
    let words = of.words.as_ref().map(|words| words.as_slice());
    match (of.program, words) {
        (Program::Planner, Some(words)) => plan_command::code_of(run(alloc, words, folder, out)),
        (Program::Planner, None) => plan_command::code_of(plan_command::print_usage(out)),
        (Program::ModernHeaders, Some(lists)) => {
            modern_files::code_of(rewrite_files(alloc, lists, folder, out))
        }
        (Program::ModernHeaders, None) => modern_files::code_of(modern_files::print_usage(out)),
    }
}

/// The printed bytes as a text.
pub fn text_of(alloc: Global, bytes: &[u8]) -> Result<String, NoMemory> {
    let text = str::from_utf8(bytes).unwrap_or("what is printed is no text");
    Ok(String::from_str(alloc, text)?)
}

/// The difference of an answer from the wanted one, or none.
pub fn other_than_wanted(
    alloc: Global,
    run: &Run,
    found: &CaseAnswer,
) -> Result<Option<String>, NoMemory> {
    let wanted = text_of(alloc, run.output.as_slice())?;
    if found.status == run.status && is_right(alloc, run, found, wanted.as_str())? {
        return Ok(None);
    }
    let line = first_other(found.output.as_str(), wanted.as_str());
    let wanted_line = first_other(wanted.as_str(), found.output.as_str());
    let mut other = String::new(alloc);
    write!(&mut other, "wanted {}: {wanted_line}\n", run.status)?;
    write!(&mut other, "found {}: {line}\n", found.status)?;
    Ok(Some(other))
}

fn is_right(alloc: Global, run: &Run, found: &CaseAnswer, wanted: &str) -> Result<bool, NoMemory> {
    match &run.digest {
        None => Ok(found.output.as_str() == wanted),
        Some(digest) => {
            let digits = hex::encode(alloc, Sha256::digest(found.output.as_bytes()))?;
            Ok(digits == *digest && has_ends(found.output.as_str(), wanted))
        }
    }
}

// Whether an output begins and ends with the lines around `...`.
fn has_ends(output: &str, ends: &str) -> bool {
    match ends.split_once("...\n") {
        Some((first, last)) => output.starts_with(first) && output.ends_with(last),
        None => output == ends,
    }
}

// The first line of a text that differs from the other text's.
fn first_other<'a>(text: &'a str, other: &str) -> &'a str {
    let mut others = other.lines();
    for line in text.lines() {
        if others.next() != Some(line) {
            return line;
        }
    }
    "the end"
}
