// The paths of an index's files.
ghost use Rattle.std.specs.Prelude.{◌≡◌, IfOk};
ghost use Rattle.index_files.specs.Places.{name_dir, record_path, release_path, under};

use plan_types::{NoMemory, Places, Text};

/// The path of a unit record.
pub(crate) fn record_path(places: &Places, name: &str) -> Result<Text, NoMemory>
    ensures { IfOk result (λ path. path ≡ record_path places.now name.now) }
{
    under(&places.installed, name)
}

/// The directory of a package's versions.
pub(crate) fn name_dir(places: &Places, name: &str) -> Result<Text, NoMemory>
    ensures { IfOk result (λ path. path ≡ name_dir places.now name.now) }
{
    under(&places.index, name)
}

/// The path of a release's file.
pub(crate) fn release_path(places: &Places, name: &str, dir: &str) -> Result<Text, NoMemory>
    ensures { IfOk result (λ path. path ≡ release_path places.now name.now dir.now) }
{
    let mut path = name_dir(places, name)?;
    path.push_str("/")?;
    path.push_str(dir)?;
    path.push_str("/")?;
    path.push_str(name)?;
    path.push_str(".cabal")?;
    Ok(path)
}

fn under(dir: &Text, name: &str) -> Result<Text, NoMemory>
    ensures { IfOk result (λ path. path ≡ under dir.now name.now) }
{
    let mut path = dir.copy()?;
    path.push_str("/")?;
    path.push_str(name)?;
    Ok(path)
}
