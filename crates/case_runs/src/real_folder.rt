// The folder of the system over which a case is run.
use crate::case::{Case, Link};
use outside_folder::RealFolder;
use plan_types::{NoMemory, Text};
use std::os::unix::fs::symlink;
use std::{fs, io};

const ROOT: &str = "folder";

/// Writes the files and links of a case into the folder.
pub fn write_files(rt: &HostRuntime, case: &Case) -> io::Result<()> {
    fs::create_dir_all(rt, ROOT)?;
    for file in case.files.as_slice() {
        write_file(rt, file.path.as_str(), file.bytes.as_slice())?;
    }
    write_links(rt, &case.links)
}

fn write_links(rt: &HostRuntime, links: &Vec<Link>) -> io::Result<()> {
    for link in links.iter() {
        let path = placed(rt, link.path.as_str())?;
        symlink(rt, link.target.as_str(), path.as_str())?;
    }
    Ok(())
}

fn write_file(rt: &HostRuntime, path: &str, bytes: &[u8]) -> io::Result<()> {
    let path = placed(rt, path)?;
    fs::write(rt, path.as_str(), bytes)
}

// A path below the folder. Makes the directories above it.
fn placed(rt: &HostRuntime, path: &str) -> io::Result<String> {
    let path = format!(in rt.alloc(); "{ROOT}/{path}")?;
    if let Some((dir, _)) = path.as_str().rsplit_once('/') {
        fs::create_dir_all(rt, dir)?;
    }
    Ok(path)
}

/// Removes the folder and its files.
pub fn clear(rt: &HostRuntime) -> io::Result<()> {
    fs::remove_dir_all(rt, ROOT)
}

/// The folder as the planner reads it.
pub fn folder_at(rt: &HostRuntime) -> Result<RealFolder<'_, HostRuntime>, NoMemory> {
    let root = Text::from_str(rt.alloc(), ROOT)?;
    Ok(RealFolder::new(rt, root))
}
