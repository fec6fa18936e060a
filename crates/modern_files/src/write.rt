// The frames of many files, written one after the other.
ghost use Rattle.std.specs.Prelude.{IfSome, IsErrOf};
ghost use Rattle.outside_folder.specs.Calls.{Leaves};
ghost use Rattle.modern_files.specs.Output.{Counted, WritesFrame, WritesFrames};

use crate::frame::frame_at;
use crate::status::Stop;
use outside_folder::{Folder, Sink, read_content, write_all};
use plan_types::Text;
use std::alloc::Global;

/// Writes the frames of the files at these paths, up to the first failure.
pub(crate) fn write_frames<F: Folder, S: Sink>(
    alloc: Global,
    paths: &[Text],
    folder: &mut F,
    out: &mut S,
) -> Result<(), Stop>
    ensures observed { IfSome (F.tells folder.old) (λ files.
        WritesFrames files paths.now (S.bytes out.old) (S.bytes out.new) result) }
    ensures folder { Leaves F.tells F.faults folder.old folder.new (IsErrOf result Stop.Unread) }
    ensures sink { Counted (S.faults out.old) (S.faults out.new) (IsErrOf result Stop.Unwritten) }
{
    for path in paths {
        write_frame(alloc, path, folder, out)?;
    }
    Ok(())
}

/// Writes the frame of the file at a path.
fn write_frame<F: Folder, S: Sink>(
    alloc: Global,
    path: &Text,
    folder: &mut F,
    out: &mut S,
) -> Result<(), Stop>
    ensures observed { IfSome (F.tells folder.old) (λ files.
        WritesFrame files path.now (S.bytes out.old) (S.bytes out.new) result) }
    ensures folder { Leaves F.tells F.faults folder.old folder.new (IsErrOf result Stop.Unread) }
    ensures sink { Counted (S.faults out.old) (S.faults out.new) (IsErrOf result Stop.Unwritten) }
{
    let content = read_content(alloc, path.as_str(), folder)?;
    let frame = frame_at(alloc, path, &content)?;
    write_all(out, frame.as_bytes())?;
    Ok(())
}
