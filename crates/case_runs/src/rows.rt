// Repetitions: a case for each of its rows, and lines for each number of a range.
use plan_types::NoMemory;
use std::alloc::Global;

const ROW: &str = "@ ";

/// The cases of a written case: one for each of its rows, or itself if it has none.
pub fn cases_of(alloc: Global, text: &str) -> Result<Vec<String>, NoMemory> {
    let mut cases = Vec::new(alloc);
    for row in text.lines().filter(|line| line.starts_with(ROW)) {
        cases.push(with_fields(alloc, text, row)?)?;
    }
    if cases.is_empty() {
        cases.push(with_fields(alloc, text, ROW)?)?;
    }
    Ok(cases)
}

// The text without its rows, with the fields of one row filled in.
fn with_fields(alloc: Global, text: &str, row: &str) -> Result<String, NoMemory> {
    let mut case = String::new(alloc);
    for line in text.lines().filter(|line| !line.starts_with(ROW)) {
        push_repeated(alloc, &mut case, filled(alloc, line, row)?.as_str())?;
    }
    Ok(case)
}

fn filled(alloc: Global, line: &str, row: &str) -> Result<String, NoMemory> {
    let mut filled = String::from_str(alloc, line)?;
    if line.contains('%') {
        let fields = row.strip_prefix(ROW).unwrap_or("");
        for (place, field) in fields.split(" @ ").enumerate() {
            let mark = format!(in alloc; "%{}", place as u128 + 1)?;
            filled = filled.as_str().replace(alloc, mark.as_str(), field)?;
        }
    }
    Ok(filled)
}

fn push_line(text: &mut String, line: &str) -> Result<(), NoMemory> {
    text.push_str(line)?;
    text.push_str("\n")?;
    Ok(())
}

fn push_repeated(alloc: Global, text: &mut String, line: &str) -> Result<(), NoMemory> {
    match repeated(line) {
        Some((first, last, lines)) => push_each(alloc, text, first, last, lines),
        None => push_line(text, line),
    }
}

// Parses a repeated line: the first number, the last one, and the text for each.
fn repeated(line: &str) -> Option<(u32, u32, &str)> {
    let (range, lines) = line.strip_prefix("* ")?.split_once(' ')?;
    let (first, last) = range.split_once("..")?;
    Some((first.parse::<u32>().ok()?, last.parse::<u32>().ok()?, lines))
}

fn push_each(
    alloc: Global,
    text: &mut String,
    first: u32,
    last: u32,
    lines: &str,
) -> Result<(), NoMemory> {
    let lines = lines.replace(alloc, "\\n", "\n")?;
    for number in first..=last {
        let here = format!(in alloc; "{number}")?;
        let next = format!(in alloc; "{}", u64::from(number) + 1)?;
        let written = lines.as_str().replace(alloc, "%n", here.as_str())?;
        let written = written.as_str().replace(alloc, "%m", next.as_str())?;
        push_line(text, written.as_str())?;
    }
    Ok(())
}
