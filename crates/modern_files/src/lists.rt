// The paths of lists.
ghost use Rattle.std.specs.Prelude.{◌≡◌, IfOk, IfSome, IsErrOf};
ghost use Rattle.outside_folder.specs.Calls.{IsWithin, Leaves};
ghost use Rattle.plan_types.specs.Refusal.{Answers, Settles, refusal_at};
ghost use Rattle.modern_files.specs.Lists.{AreListed, IsListed, paths_in};

use outside_folder::{Content, Folder, read_content};
use plan_types::{Cause, Halt, List, NoMemory, Refusal, Text};
use std::alloc::Global;
use std::str;

/// The paths of all lists, or the first refusal of one.
pub(crate) fn read_lists<F: Folder>(
    alloc: Global,
    lists: &[Text],
    folder: &mut F,
) -> Result<List<Text>, Halt>
    ensures observed { IfSome (F.tells folder.old) (λ files. Answers (AreListed files lists.now) result) }
    ensures folder { Leaves F.tells F.faults folder.old folder.new (IsErrOf result Halt.Failed) }
{
    let mut paths = List::new(alloc);
    for list in lists {
        let content = read_content(alloc, list.as_str(), folder)?;
        let mut more = listed(alloc, list, &content)?;
        paths.append(&mut more)?;
    }
    Ok(paths)
}

/// The paths of the content of a list.
fn listed(alloc: Global, list: &Text, content: &Content) -> Result<List<Text>, Halt>
    requires { IsWithin content.now }
    ensures { Settles (IsListed list.now content.now) result }
{
    match content {
        Content::Missing => Err(refused(alloc, list, Cause::NoMatch)?),
        Content::TooLarge => Err(refused(alloc, list, Cause::TooLarge)?),
        Content::Bytes(bytes) => match str::from_utf8(bytes.as_slice()) {
            Ok(text) => Ok(paths_in(alloc, text)?),
            Err(_) => Err(refused(alloc, list, Cause::NotUtf8)?),
        },
    }
}

fn refused(alloc: Global, list: &Text, cause: Cause) -> Result<Halt, NoMemory>
    ensures { IfOk result (λ halt. halt ≡ Halt.Refused (refusal_at list.now 0 cause)) }
{
    let path = list.copy()?;
    Ok(Halt::Refused(Refusal::at(alloc, path, 0, cause)))
}

/// The lines of a list that aren't empty.
fn paths_in(alloc: Global, text: &str) -> Result<List<Text>, NoMemory>
    ensures { IfOk result (λ paths. paths ≡ paths_in text.now) }
{
    let mut paths = List::new(alloc);
    for line in text.lines() {
        if !line.is_empty() {
            paths.push(Text::from_str(alloc, line)?)?;
        }
    }
    Ok(paths)
}
