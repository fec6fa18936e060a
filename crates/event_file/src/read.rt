// Reading a file of events from a folder.
ghost use Rattle.std.specs.Prelude.{◌≡◌, ◌≤◌, IfOk, IfSome, IsErrOf};
ghost use Rattle.outside_folder.specs.Calls.{IsWithin, Leaves};
ghost use Rattle.outside_folder.specs.Folder.{file_limit};
ghost use Rattle.plan_types.specs.Refusal.{Answers, Settles, refusal_at};
ghost use Rattle.event_file.specs.Events.{AreEventsAt, AreEventsIn};

use outside_folder::{Content, Folder, read_content};
use plan_types::{Cause, Halt, List, NoMemory, Refusal, Text};
use replay_text::{EventsFault, JobEvent, read_events};
use std::alloc::Global;

/// The events of the file at a path, none if there is no such file, or the refusal of the file.
pub fn read_event_file<F: Folder>(
    alloc: Global,
    path: &Text,
    folder: &mut F,
) -> Result<List<JobEvent>, Halt>
    ensures observed { IfSome (F.tells folder.old) (λ files. Answers (AreEventsAt path.now files) result) }
    ensures folder { Leaves F.tells F.faults folder.old folder.new (IsErrOf result Halt.Failed) }
{
    let content = read_content(alloc, path.as_str(), folder)?;
    events_in(alloc, path, &content)
}

// The events of the content at the path.
fn events_in(alloc: Global, path: &Text, content: &Content) -> Result<List<JobEvent>, Halt>
    requires { IsWithin content.now }
    ensures { Settles (AreEventsIn path.now content.now) result }
{
    match content {
        Content::Missing => Ok(List::new(alloc)),
        Content::TooLarge => Err(refused(alloc, path, 0, Cause::TooLarge)?),
        Content::Bytes(bytes) => match read_events(alloc, bytes.as_slice()) {
            Ok(events) => Ok(events),
            Err(EventsFault::Bad(line)) => Err(bad_line(alloc, path, line)?),
            Err(EventsFault::NoMemory) => Err(Halt::NoMemory),
        },
    }
}

fn bad_line(alloc: Global, path: &Text, line: usize) -> Result<Halt, NoMemory>
    requires { line ≤ file_limit }
    ensures { IfOk result (λ halt. halt ≡ Halt.Refused (refusal_at path.now line Cause.BadEvent)) }
{
    refused(alloc, path, line as u32, Cause::BadEvent)
}

fn refused(alloc: Global, path: &Text, line: u32, cause: Cause) -> Result<Halt, NoMemory>
    ensures { IfOk result (λ halt. halt ≡ Halt.Refused (refusal_at path.now line cause)) }
{
    let path = path.copy()?;
    Ok(Halt::Refused(Refusal::at(alloc, path, line, cause)))
}
