// A whole run.
ghost use Rattle.std.specs.Prelude.{◌≡◌, [], IfSome, IsErrOf};
ghost use Rattle.outside_folder.specs.Calls.{Leaves};
ghost use Rattle.plan_print.specs.Texts.{refusal_text};
ghost use Rattle.modern_files.specs.Output.{Counted, Writes, WritesText, WritesUsage};

use crate::lists::read_lists;
use crate::status::{Status, Stop, status_of};
use crate::write::write_frames;
use outside_folder::{Folder, Sink, write_all};
use plan_print::text_of_refusal;
use plan_types::{Halt, Refusal, Text};
use std::alloc::Global;

/// The line for no list.
const USAGE: &str = "usage: modern-headers LIST ..., each a file with a path a line\n";

/// Writes the frames of the files at the paths that the lists name, in their order. All lists are read before the first
/// file, so that nothing but its refusal is written of a bad list.
pub fn rewrite_files<F: Folder, S: Sink>(
    alloc: Global,
    lists: &[Text],
    folder: &mut F,
    out: &mut S,
) -> Status
    ensures observed { IfSome (F.tells folder.old) (λ files.
        Writes files lists.now (S.bytes out.old) (S.bytes out.new) result) }

    // No failure is hidden: the folder's count of faults rises only with the status `ReadFault`, and the sink's only
    // with `WriteFault`.
    ensures folder { Leaves F.tells F.faults folder.old folder.new (result ≡ Status.ReadFault) }
    ensures sink { Counted (S.faults out.old) (S.faults out.new) (result ≡ Status.WriteFault) }
    ensures usage { result ≡ Status.Usage → lists.now ≡ [] }
{
    if lists.is_empty() {
        return print_usage(out);
    }
    match read_lists(alloc, lists, folder) {
        Ok(paths) => status_of(
            write_frames(alloc, paths.as_slice(), folder, out),
            Status::Written,
        ),
        Err(Halt::Refused(refusal)) => status_of(
            write_refusal(alloc, &refusal, out),
            Status::Refused,
        ),
        Err(Halt::Failed) => Status::ReadFault,
        Err(Halt::NoMemory) => Status::NoMemory,
    }
}

/// Writes the usage line, for no list and for words that aren't UTF-8.
pub fn print_usage<S: Sink>(out: &mut S) -> Status
    ensures usage { WritesUsage (S.bytes out.old) (S.bytes out.new) result }
    ensures sink { Counted (S.faults out.old) (S.faults out.new) (result ≡ Status.WriteFault) }
{
    match write_all(out, USAGE.as_bytes()) {
        Ok(()) => Status::Usage,
        Err(_) => Status::WriteFault,
    }
}

fn write_refusal<S: Sink>(alloc: Global, refusal: &Refusal, out: &mut S) -> Result<(), Stop>
    ensures text { WritesText (refusal_text refusal.now) (S.bytes out.old) (S.bytes out.new) result }
    ensures sink { Counted (S.faults out.old) (S.faults out.new) (IsErrOf result Stop.Unwritten) }
{
    let text = text_of_refusal(alloc, refusal)?;
    write_all(out, text.as_bytes())?;
    Ok(())
}
