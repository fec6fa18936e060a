// The bytes of lines of content, and of words.
use plan_types::{List, NoMemory};
use std::alloc::Global;

/// The bytes of a file or an output, from its written lines.
pub fn bytes_of(alloc: Global, lines: &str) -> Result<List<u8>, NoMemory> {
    let mut bytes = Vec::new(alloc);
    for line in lines.trim_end_matches('\n').lines() {
        push_content(&mut bytes, line)?;
    }
    Ok(List::from_vec(bytes))
}

/// The bytes of a word, from its written form. A backslash at its end means nothing.
pub fn word_bytes(alloc: Global, word: &str) -> Result<Vec<u8>, NoMemory> {
    let mut bytes = Vec::new(alloc);
    push_escaped(&mut bytes, word.as_bytes())?;
    Ok(bytes)
}

/// A copy of the bytes.
pub fn copied(alloc: Global, bytes: &[u8]) -> Result<List<u8>, NoMemory> {
    let mut copied = Vec::new(alloc);
    copied.extend_from_slice(bytes)?;
    Ok(List::from_vec(copied))
}

fn push_content(bytes: &mut Vec<u8>, line: &str) -> Result<(), NoMemory> {
    if let Some(size) = line.strip_prefix("\\pad ") {
        let size = size.parse::<u32>().unwrap_or(0) as usize;
        if bytes.len() < size {
            bytes.resize(size, b' ')?;
        }
        return Ok(());
    }
    push_line(bytes, line)
}

fn push_line(bytes: &mut Vec<u8>, line: &str) -> Result<(), NoMemory> {
    let has_end = match line.contains('\\') {
        true => push_escaped(bytes, line.as_bytes())?,
        false => {
            bytes.extend_from_slice(line.as_bytes())?;
            true
        }
    };
    if has_end {
        bytes.push(b'\n')?;
    }
    Ok(())
}

// The state of an escape after some bytes of a line.
#[derive(Clone, Copy)]
enum Open {
    Nothing,
    Escape,
    Byte,
    Digit(u8),
}

// Appends the bytes of a line or word, and returns whether no backslash is at its end.
fn push_escaped(bytes: &mut Vec<u8>, line: &[u8]) -> Result<bool, NoMemory> {
    let mut open = Open::Nothing;
    for byte in line {
        open = pushed(bytes, open, *byte)?;
    }
    Ok(!matches!(open, Open::Escape))
}

fn pushed(bytes: &mut Vec<u8>, open: Open, byte: u8) -> Result<Open, NoMemory> {
    match (open, byte) {
        (Open::Nothing, b'\\') => return Ok(Open::Escape),
        (Open::Escape, b'x') => return Ok(Open::Byte),
        (Open::Byte, _) => return Ok(Open::Digit(digit(byte))),
        (Open::Nothing, _) => bytes.push(byte)?,
        (Open::Escape, _) => bytes.push(escaped(byte))?,
        (Open::Digit(first), _) => bytes.push(first << 4 | digit(byte))?,
    }
    Ok(Open::Nothing)
}

fn escaped(byte: u8) -> u8 {
    match byte {
        b'n' => b'\n',
        b't' => b'\t',
        b'r' => b'\r',
        b's' => b' ',
        _ => byte,
    }
}

// The value of a hexadecimal digit in lower case.
fn digit(byte: u8) -> u8 {
    match byte {
        b'0'..=b'9' => byte - b'0',
        b'a'..=b'f' => byte - b'a' + 10,
        _ => 0,
    }
}
