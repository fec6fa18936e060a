// A case: the files of a folder, and the runs over it.
use crate::content::{bytes_of, copied, word_bytes};
use crate::failing::{Failing, failing_of};
use crate::short::{push_file, push_short};
use outside_folder::MemFile;
use plan_types::{List, NoMemory, Text};
use std::alloc::Global;

/// The program of a run. A run of `modern-headers` begins with its name, a run of the planner with its words.
#[derive(Clone, Copy)]
pub enum Program {
    Planner,
    ModernHeaders,
}

/// A run as written: its program, its words, its faults, and the wanted status and output, with a digest of a long
/// output.
#[derive(Drop)]
pub struct Run {
    pub program: Program,
    /// None if a word isn't UTF-8.
    pub words: Option<List<Text>>,
    pub failing: Failing,
    pub status: u8,
    pub digest: Option<String>,
    pub output: List<u8>,
}

/// A symbolic link of a folder.
#[derive(Drop)]
pub struct Link {
    pub path: String,
    pub target: String,
}

/// A case as written. A case with links is run only over a folder of the system.
#[derive(Drop)]
pub struct Case {
    pub name: String,
    pub files: List<MemFile>,
    pub links: Vec<Link>,
    pub runs: Vec<Run>,
}

const MODERN: &str = "modern-headers";

const MARKS: [&str; 4] = ["--- ", "+ ", "$ ", "# "];

// A line with a mark, and the lines of content below it.
#[derive(Drop)]
struct Block<'a> {
    head: &'a str,
    content: String,
}

fn is_mark(line: &str) -> bool {
    MARKS.iter().any(|mark| line.starts_with(*mark))
}

// The blocks of a case. The first one has the case's name as head.
fn blocks<'a>(alloc: Global, written: &'a str) -> Result<Vec<Block<'a>>, NoMemory> {
    let mut blocks: Vec<Block<'a>> = Vec::new(alloc);
    for line in written.lines() {
        match blocks.last_mut() {
            Some(block) if !is_mark(line) => {
                block.content.push_str(line)?;
                block.content.push_str("\n")?;
            }
            _ => blocks.push(Block {
                head: line,
                content: String::new(alloc),
            })?,
        }
    }
    Ok(blocks)
}

/// Reads a case: its name in the first line, and its files and runs below.
pub fn case_of(alloc: Global, written: &str) -> Result<Case, NoMemory> {
    let mut case = Case {
        name: String::from_str(alloc, written.lines().next().unwrap_or(""))?,
        files: List::new(alloc),
        links: Vec::new(alloc),
        runs: Vec::new(alloc),
    };
    for block in blocks(alloc, written)?.iter() {
        take(alloc, &mut case, block.head, block.content.as_str())?;
    }
    Ok(case)
}

fn take(alloc: Global, case: &mut Case, head: &str, content: &str) -> Result<(), NoMemory> {
    if let Some(path) = head.strip_prefix("--- ") {
        push_file(alloc, &mut case.files, path, content)?;
    } else if let Some(link) = head.strip_prefix("+ link ") {
        case.links.push(link_of(alloc, link)?)?;
    } else if let Some(form) = head.strip_prefix("+ ") {
        push_short(alloc, &mut case.files, form)?;
    } else if let Some(run) = head.strip_prefix("$ ") {
        let run = run_of(alloc, run, content, case.runs.last())?;
        case.runs.push(run)?;
    }
    Ok(())
}

fn link_of(alloc: Global, link: &str) -> Result<Link, NoMemory> {
    let (path, target) = link.split_once(' ').unwrap_or((link, ""));
    let path = String::from_str(alloc, path)?;
    let target = String::from_str(alloc, target)?;
    Ok(Link { path, target })
}

// A run that is made many times has the output of the run above it.
fn run_of(alloc: Global, head: &str, content: &str, above: Option<&Run>) -> Result<Run, NoMemory> {
    let (call, end) = head.split_once(" => ").unwrap_or((head, "0"));
    let (words, fault) = call.split_once(" ! ").unwrap_or((call, ""));
    let (status, digest) = end.split_once(" sha256 ").unwrap_or((end, ""));
    let (program, words) = program_of(words);
    let failing = failing_of(fault);
    let output = match above {
        Some(above) if failing.is_repeated() => copied(alloc, above.output.as_slice())?,
        _ => bytes_of(alloc, content)?,
    };
    Ok(Run {
        program,
        words: words_of(alloc, words)?,
        failing,
        status: status.parse::<u8>().unwrap_or(u8::MAX),
        digest: digest_of(alloc, digest)?,
        output,
    })
}

// The program of a run, and its words as written.
fn program_of(line: &str) -> (Program, &str) {
    let (first, words) = line.split_once(' ').unwrap_or((line, ""));
    if first == MODERN {
        (Program::ModernHeaders, words)
    } else {
        (Program::Planner, line)
    }
}

// The words of a run, or none if one of them isn't UTF-8.
fn words_of(alloc: Global, line: &str) -> Result<Option<List<Text>>, NoMemory> {
    let mut words = List::new(alloc);
    for written in line.split(' ').filter(|word| !word.is_empty()) {
        let bytes = word_bytes(alloc, written)?;
        match str::from_utf8(bytes.as_slice()) {
            Ok(word) => words.push(Text::from_str(alloc, word)?)?,
            Err(_) => return Ok(None),
        }
    }
    Ok(Some(words))
}

fn digest_of(alloc: Global, digest: &str) -> Result<Option<String>, NoMemory> {
    if digest.is_empty() {
        return Ok(None);
    }
    Ok(Some(String::from_str(alloc, digest)?))
}
