// Runs with faults, and runs over truncated files.
use crate::answer::{CaseAnswer, Faults, answer_over, mem_folder, other_than_wanted, text_of};
use crate::case::{Program, Run};
use crate::content::copied;
use outside_folder::MemFile;
use plan_types::{List, NoMemory};
use std::alloc::Global;

/// The faults of a run.
#[derive(Clone, Copy)]
pub enum Failing {
    Nothing,
    /// The call on the folder with this number, from 1.
    Call(u64),
    /// Each of so many calls on the folder in turn. The next run over the same folder answers as if none had failed.
    EachCall(u64),
    /// Each write in turn, with so many bytes a write.
    EachWrite(usize),
    /// A full sink, with room for each smaller number of the output's bytes in turn.
    EachByte,
    /// No fault, but each file is truncated after each of its bytes in turn.
    EachCut,
    /// None of these.
    Unknown,
}

impl Failing {
    /// Whether a run is made many times.
    pub fn is_repeated(self) -> bool {
        matches!(
            self,
            Failing::EachCall(_) | Failing::EachWrite(_) | Failing::EachByte | Failing::EachCut
        )
    }
}

/// Reads the faults of a run.
pub fn failing_of(fault: &str) -> Failing {
    let (kind, number) = fault.split_once(' ').unwrap_or((fault, "0"));
    match (kind, number.parse::<u32>()) {
        ("", Ok(_)) => Failing::Nothing,
        ("call", Ok(number)) => Failing::Call(u64::from(number)),
        ("calls", Ok(number)) => Failing::EachCall(u64::from(number)),
        ("writes", Ok(number)) => Failing::EachWrite(number as usize),
        ("bytes", Ok(_)) => Failing::EachByte,
        ("cuts", Ok(_)) => Failing::EachCut,
        _ => Failing::Unknown,
    }
}

/// The answer of a run over these files with its faults, if it is wrong.
pub fn other_failing(
    alloc: Global,
    files: &[MemFile],
    run: &Run,
) -> Result<Option<String>, NoMemory> {
    match run.failing {
        Failing::Nothing => other_with(alloc, files, run, Faults::NONE),
        Failing::Call(call) => {
            let faults = Faults {
                call,
                ..Faults::NONE
            };
            other_with(alloc, files, run, faults)
        }
        Failing::EachCall(calls) => other_of_calls(alloc, files, run, calls),
        Failing::EachWrite(most) => other_of_writes(alloc, files, run, most),
        Failing::EachByte => other_of_bytes(alloc, files, run),
        Failing::EachCut => other_of_cuts(alloc, files, run),
        Failing::Unknown => Ok(Some(String::from_str(alloc, "what fails isn't known\n")?)),
    }
}

// A copy of the files, in which the one at a place is truncated to so many bytes.
fn cut(
    alloc: Global,
    files: &[MemFile],
    place: usize,
    length: usize,
) -> Result<List<MemFile>, NoMemory> {
    let mut cut = List::new(alloc);
    for (at, file) in files.iter().enumerate() {
        let bytes = file.bytes.as_slice();
        let front = if at == place {
            bytes.get(..length)
        } else {
            None
        };
        cut.push(MemFile {
            path: file.path.copy()?,
            bytes: copied(alloc, front.unwrap_or(bytes))?,
        })?;
    }
    Ok(cut)
}

fn whole(alloc: Global, files: &[MemFile]) -> Result<List<MemFile>, NoMemory> {
    cut(alloc, files, usize::MAX, 0)
}

fn shown(alloc: Global, what: &str, found: &CaseAnswer) -> Result<Option<String>, NoMemory> {
    let (status, output) = (found.status, found.output.as_str());
    Ok(Some(format!(in alloc; "{what}: {status}\n{output}\n")?))
}

fn no_folder(alloc: Global) -> Result<Option<String>, NoMemory> {
    Ok(Some(String::from_str(alloc, "its files make no folder\n")?))
}

fn other_with(
    alloc: Global,
    files: &[MemFile],
    run: &Run,
    faults: Faults,
) -> Result<Option<String>, NoMemory> {
    match mem_folder(alloc, whole(alloc, files)?, faults.call)? {
        Some(mut folder) => {
            let found = answer_over(alloc, run, &mut folder, faults)?;
            other_than_wanted(alloc, run, &found)
        }
        None => no_folder(alloc),
    }
}

fn other_of_calls(
    alloc: Global,
    files: &[MemFile],
    run: &Run,
    calls: u64,
) -> Result<Option<String>, NoMemory> {
    for call in 1..=calls {
        if let Some(other) = other_of_call(alloc, files, run, call)? {
            return Ok(Some(other));
        }
    }
    let faults = Faults {
        call: calls.saturating_add(1),
        ..Faults::NONE
    };
    other_with(alloc, files, run, faults)
}

// A run whose call fails prints nothing, and leaves the folder as it was.
fn other_of_call(
    alloc: Global,
    files: &[MemFile],
    run: &Run,
    call: u64,
) -> Result<Option<String>, NoMemory> {
    let Some(mut folder) = mem_folder(alloc, whole(alloc, files)?, call)? else {
        return no_folder(alloc);
    };
    let first = answer_over(alloc, run, &mut folder, Faults::NONE)?;
    if first.status != 4 || !first.output.is_empty() {
        return shown(alloc, "with a failing call", &first);
    }
    let second = answer_over(alloc, run, &mut folder, Faults::NONE)?;
    other_than_wanted(alloc, run, &second)
}

// The answer of a run with a failed write, unless it is the prefix of the wanted output of so many bytes.
fn other_front(
    alloc: Global,
    files: &[MemFile],
    run: &Run,
    faults: Faults,
    length: usize,
) -> Result<Option<String>, NoMemory> {
    let Some(mut folder) = mem_folder(alloc, whole(alloc, files)?, 0)? else {
        return no_folder(alloc);
    };
    let wanted = text_of(alloc, run.output.as_slice())?;
    let found = answer_over(alloc, run, &mut folder, faults)?;
    let output = found.output.as_str();
    if found.status == 5 && output.len() == length && wanted.as_str().starts_with(output) {
        return Ok(None);
    }
    shown(alloc, "with a failing write", &found)
}

fn other_of_writes(
    alloc: Global,
    files: &[MemFile],
    run: &Run,
    most: usize,
) -> Result<Option<String>, NoMemory> {
    let writes = run.output.len().checked_div(most).unwrap_or(0);
    for before in 0..writes {
        let faults = Faults {
            write: (before as u64).saturating_add(1),
            most,
            ..Faults::NONE
        };
        let length = most.saturating_mul(before);
        if let Some(other) = other_front(alloc, files, run, faults, length)? {
            return Ok(Some(other));
        }
    }
    Ok(None)
}

fn other_of_bytes(alloc: Global, files: &[MemFile], run: &Run) -> Result<Option<String>, NoMemory> {
    for room in 0..run.output.len() {
        let faults = Faults {
            room,
            ..Faults::NONE
        };
        if let Some(other) = other_front(alloc, files, run, faults, room)? {
            return Ok(Some(other));
        }
    }
    Ok(None)
}

fn other_of_cuts(alloc: Global, files: &[MemFile], run: &Run) -> Result<Option<String>, NoMemory> {
    for (place, file) in files.iter().enumerate() {
        if let Some(other) = other_of_file(alloc, files, run, place, file.bytes.len())? {
            return Ok(Some(other));
        }
    }
    Ok(None)
}

fn other_of_file(
    alloc: Global,
    files: &[MemFile],
    run: &Run,
    place: usize,
    bytes: usize,
) -> Result<Option<String>, NoMemory> {
    for length in 0..=bytes {
        let files = cut(alloc, files, place, length)?;
        if let Some(other) = other_of_cut(alloc, files, run)? {
            return Ok(Some(other));
        }
    }
    Ok(None)
}

// A run over truncated files has an answer, and so has a second run: the same one.
fn other_of_cut(
    alloc: Global,
    files: List<MemFile>,
    run: &Run,
) -> Result<Option<String>, NoMemory> {
    let Some(mut folder) = mem_folder(alloc, files, 0)? else {
        return no_folder(alloc);
    };
    let first = answer_over(alloc, run, &mut folder, Faults::NONE)?;
    let second = answer_over(alloc, run, &mut folder, Faults::NONE)?;
    let is_same = first.status == second.status && first.output == second.output;
    if is_same && is_answer(run.program, &first) {
        return Ok(None);
    }
    shown(alloc, "with a file that is cut off", &first)
}

// Whether an answer is a plan, that there is none, frames, or a refusal.
fn is_answer(program: Program, found: &CaseAnswer) -> bool {
    let output = found.output.as_str();
    match (program, found.status) {
        (Program::Planner, 0) => output.starts_with("plan\n"),
        (Program::Planner, 1) => output.starts_with("no plan\n"),
        (Program::ModernHeaders, 0) => are_frames(output),
        (_, 3) => output.starts_with("refused "),
        _ => false,
    }
}

// What the next line of frames is.
#[derive(Clone, Copy)]
enum Next {
    /// The first line of a frame, or the end.
    Frame,
    /// A change of a file that is rewritten, or the number of its bytes.
    Change,
    /// Part of a text: so many bytes of it are left, with the line end behind it.
    Text(usize),
    /// No frame has such a line.
    Nothing,
}

fn are_frames(output: &str) -> bool {
    let mut next = Next::Frame;
    for line in output.split_inclusive('\n') {
        next = next_of(next, line);
    }
    matches!(next, Next::Frame)
}

fn next_of(next: Next, line: &str) -> Next {
    match next {
        Next::Frame => next_in_frame(line),
        Next::Change => next_of_change(line),
        Next::Text(left) => next_in_text(left, line.len()),
        Next::Nothing => Next::Nothing,
    }
}

fn next_in_frame(line: &str) -> Next {
    if line.starts_with("rewritten ") {
        return Next::Change;
    }
    let whole = ["missing ", "unchanged ", "refused "];
    match whole.iter().any(|word| line.starts_with(*word)) {
        true => Next::Frame,
        false => Next::Nothing,
    }
}

fn next_of_change(line: &str) -> Next {
    if line.starts_with("change ") {
        return Next::Change;
    }
    let bytes = line.trim_end_matches('\n').strip_prefix("bytes ");
    match bytes.map(|bytes| bytes.parse::<u32>()) {
        Some(Ok(bytes)) => Next::Text((bytes as usize).saturating_add(1)),
        _ => Next::Nothing,
    }
}

fn next_in_text(left: usize, bytes: usize) -> Next {
    match left.checked_sub(bytes) {
        None => Next::Nothing,
        Some(0) => Next::Frame,
        Some(left) => Next::Text(left),
    }
}
