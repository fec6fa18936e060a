// Calls on folders in written form: `list` or `read`, and a path after `./`; and the text of their answers.
use outside_folder::{Folder, Name};
use std::alloc::Global;
use std::test::Fail;

// The names, with `/` after those of directories; of more than 100 only their number.
fn shown_names(alloc: Global, names: &[Name]) -> Result<String, Fail> {
    let count = names.len();
    if count > 100 {
        return Ok(format!(in alloc; "{count} names")?);
    }
    let mut line = String::from_str(alloc, "names")?;
    for name in names {
        line.push_str(" ")?;
        line.push_str(name.text.as_str())?;
        line.push_str(if name.folder { "/" } else { "" })?;
    }
    Ok(line)
}

// The bytes as a text; of more than 100 only their number.
fn shown_bytes(alloc: Global, bytes: &[u8]) -> Result<String, Fail> {
    let count = bytes.len();
    if count > 100 {
        return Ok(format!(in alloc; "{count} bytes")?);
    }
    let text = str::from_utf8(bytes)?;
    Ok(format!(in alloc; "bytes {text}")?)
}

fn listed<F: Folder>(alloc: Global, folder: &mut F, dir: &str) -> Result<String, Fail> {
    match folder.list(alloc, dir) {
        Ok(Some(names)) => shown_names(alloc, names.as_slice()),
        Ok(None) => Ok(String::from_str(alloc, "none")?),
        Err(fault) => Ok(format!(in alloc; "{fault:?}")?),
    }
}

fn read<F: Folder>(alloc: Global, folder: &mut F, path: &str) -> Result<String, Fail> {
    match folder.read(alloc, path) {
        Ok(Some(bytes)) => shown_bytes(alloc, bytes.as_slice()),
        Ok(None) => Ok(String::from_str(alloc, "none")?),
        Err(fault) => Ok(format!(in alloc; "{fault:?}")?),
    }
}

pub(crate) fn answered<F: Folder>(
    alloc: Global,
    folder: &mut F,
    call: &str,
) -> Result<String, Fail> {
    let (name, path) = call.split_once(" ./").ok_or("no path")?;
    if name == "list" {
        listed(alloc, folder, path)
    } else {
        read(alloc, folder, path)
    }
}
