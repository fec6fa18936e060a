// Files of a folder in memory.
use outside_folder::MemFile;
use plan_types::{List, Text};
use std::alloc::Global;
use std::test::Fail;

// A path, which is also the file's content; or a path, `=`, and the number of its bytes.
fn file(alloc: Global, written: &str) -> Result<MemFile, Fail> {
    let (path, bytes) = match written.split_once('=') {
        Some((path, length)) => (path, vec![in alloc; 7u8; length.parse::<usize>()?]?),
        None => (written, written.as_bytes().to_vec(alloc)?),
    };
    let path = Text::from_str(alloc, path)?;
    let bytes = List::from_vec(bytes);
    Ok(MemFile { path, bytes })
}

/// The files of the words that begin with `./`; other words are ignored.
pub(crate) fn files(alloc: Global, words: &str) -> Result<List<MemFile>, Fail> {
    let mut files = List::new(alloc);
    for word in words.split(' ') {
        if let Some(written) = word.strip_prefix("./") {
            files.push(file(alloc, written)?)?;
        }
    }
    Ok(files)
}
