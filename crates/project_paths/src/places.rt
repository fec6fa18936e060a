// The places of a listing: the files and directories in a directory.
ghost use Rattle.std.specs.Prelude.{◌≡◌, [], IfOk};
ghost use Rattle.project_paths.specs.Places.{path_in, place_in, root};

use outside_folder::Name;
use plan_types::{NoMemory, Text};
use std::alloc::Global;

/// A file or a directory of a folder.
#[derive(Debug, Drop)]
pub(crate) struct FolderPlace {
    pub path: Text,
    pub folder: bool,
}

/// The root of the folder.
pub(crate) fn root(alloc: Global) -> FolderPlace
    ensures { result ≡ root }
{
    FolderPlace {
        path: Text::new(alloc),
        folder: true,
    }
}

/// The place of a name in a directory.
pub(crate) fn place_in(dir: &Text, name: &Name) -> Result<FolderPlace, NoMemory>
    ensures { IfOk result (λ place. place ≡ place_in dir.now name.now) }
{
    let path = path_in(dir, &name.text)?;
    Ok(FolderPlace {
        path,
        folder: name.folder,
    })
}

/// The path of a name in a directory.
pub(crate) fn path_in(dir: &Text, name: &Text) -> Result<Text, NoMemory>
    ensures { IfOk result (λ path. path ≡ path_in dir.now name.now) }
{
    let path = dir.copy()?;
    longer_path(path, name)
}

/// The same, but it consumes the directory's path, so a sequence of names is appended to one text.
pub(crate) fn longer_path(dir: Text, name: &Text) -> Result<Text, NoMemory>
    ensures { IfOk result (λ path. path ≡ path_in dir name.now) }
{
    if dir.as_bytes().is_empty() {
        return name.copy();
    }
    let mut path = dir;
    path.push_str("/")?;
    path.push_str(name.as_str())?;
    Ok(path)
}
