//! The program `modern-headers`. In go its words, each the path of a list in the current folder; out come the frames of
//! the files that the lists name, and an exit status. It writes no file. No failure is hidden: a failed read, a failed
//! write and out of memory have a status of their own. Each also has a line on standard error.
#![tactic(auto)]

ghost use Rattle.std.specs.Prelude.{◌≡◌, ◌++◌, ◌∷◌, [], codes, map, string_bytes, IfOk};
ghost use Rattle.std.specs.Option.{option_copied};
ghost use Rattle.std.specs.Process.{exit_status};
ghost use Rattle.std.specs.Vec.Iter.{into_iter_items};
ghost use Rattle.modern_files.specs.Status.{number_of_status};
ghost use Rattle.modern_headers.specs.Failure.{IsLineWritten, failure_of};
ghost use Rattle.modern_headers.specs.Run.{IsEnd, IsEndOver, IsEndWithoutWords, IsExit, IsRunOver, sink_state, words_of};

use modern_files::{Status, code_of, print_usage, rewrite_files};
use outside_folder::{Folder, RealFolder, RealSink, Sink, WriterSink, write_all};
use plan_types::{List, NoMemory, Text};
use std::alloc::Global;
use std::env::{self, Args};
use std::io::{self, ErrorKind};
use std::process::ExitCode;
use std::rt::Files;

fn main(rt: HostRuntime) -> ExitCode {
    program(
        &rt,
        env::args(&rt),
        &mut current_folder(&rt),
        &mut RealSink::new(&rt),
        &mut WriterSink::over(rt.stderr()),
    )
}

// Writes the frames of the files that the lists name, and the line of a failure to standard error, and exits with the
// run's status.
fn program<R: AllocGlobal, F: Folder, S: Sink, E: Sink>(
    rt: &R,
    args: io::Result<Args>,
    folder: &mut Result<F, NoMemory>,
    out: &mut S,
    errors: &mut E,
) -> ExitCode
    ensures { IsExit (λ args. map string_bytes (into_iter_items args)) F.tells F.faults args folder.old folder.new
        (sink_state S.bytes S.faults out.old) (sink_state S.bytes S.faults out.new)
        (sink_state E.bytes E.faults errors.old)
        (sink_state E.bytes E.faults errors.new)
        (exit_status result) }
{
    let status = status_of(rt.alloc(), args, folder, out);
    say(status, errors);
    ExitCode::from(code_of(status))
}

fn status_of<F: Folder, S: Sink>(
    alloc: Global,
    args: io::Result<Args>,
    folder: &mut Result<F, NoMemory>,
    out: &mut S,
) -> Status
    ensures { IsEnd (λ args. map string_bytes (into_iter_items args)) F.tells F.faults args folder.old folder.new
        (sink_state S.bytes S.faults out.old) (sink_state S.bytes S.faults out.new) result }
{
    match args {
        Ok(args) => status_for(alloc, args, folder, out),
        Err(error) => status_without_words(error.kind(), out),
    }
}

// Words that the system can't give as text name no list.
fn status_without_words<S: Sink>(kind: ErrorKind, out: &mut S) -> Status
    ensures { IsEndWithoutWords kind (sink_state S.bytes S.faults out.old)
        (sink_state S.bytes S.faults out.new) result }
{
    if kind == ErrorKind::OutOfMemory {
        Status::NoMemory
    } else {
        print_usage(out)
    }
}

fn status_for<F: Folder, S: Sink>(
    alloc: Global,
    args: Args,
    folder: &mut Result<F, NoMemory>,
    out: &mut S,
) -> Status
    ensures { IsEndOver F.tells F.faults (words_of (map string_bytes (into_iter_items args))) folder.old folder.new
        (sink_state S.bytes S.faults out.old) (sink_state S.bytes S.faults out.new) result }
{
    match folder {
        Ok(folder) => status_over(alloc, args, folder, out),
        Err(NoMemory) => Status::NoMemory,
    }
}

fn status_over<F: Folder, S: Sink>(alloc: Global, args: Args, folder: &mut F, out: &mut S) -> Status
    ensures { IsRunOver F.tells F.faults (words_of (map string_bytes (into_iter_items args))) folder.old folder.new
        (sink_state S.bytes S.faults out.old) (sink_state S.bytes S.faults out.new) result }
{
    match words_of(alloc, args) {
        Ok(lists) => rewritten(alloc, &lists, folder, out),
        Err(NoMemory) => Status::NoMemory,
    }
}

fn rewritten<F: Folder, S: Sink>(
    alloc: Global,
    lists: &List<Text>,
    folder: &mut F,
    out: &mut S,
) -> Status
    ensures { IsRunOver F.tells F.faults lists.now folder.old folder.new (sink_state S.bytes S.faults out.old)
        (sink_state S.bytes S.faults out.new) result }
{
    rewrite_files(alloc, lists.as_slice(), folder, out)
}

// The words after the program's name.
fn words_of(alloc: Global, args: Args) -> Result<List<Text>, NoMemory>
    ensures { IfOk result (λ words. words ≡ words_of (map string_bytes (into_iter_items args))) }
{
    let mut args = args;
    let mut words = List::new(alloc);
    let _name = args.next();
    for word in args {
        words.push(Text::from_string(word))?;
    }
    Ok(words)
}

fn current_folder<R: Files + AllocGlobal + Clone + Drop>(
    rt: &R,
) -> Result<RealFolder<'_, R>, NoMemory>
    ensures { IfOk result (λ folder. folder.root ≡ codes ".") }
{
    let root = Text::from_str(rt.alloc(), ".")?;
    Ok(RealFolder::new(rt, root))
}

// Writes the line of a failure. If that write fails too, only the exit status reports the failure.
fn say<E: Sink>(status: Status, errors: &mut E)
    ensures { IsLineWritten (failure_of status) (sink_state E.bytes E.faults errors.old)
        (sink_state E.bytes E.faults errors.new) }
{
    if let Some(line) = failure_of(status) {
        let _ = write_all(errors, line.as_bytes());
    }
}

fn failure_of(status: Status) -> Option<&'static str>
    ensures { option_copied result ≡ failure_of status }
{
    match status {
        Status::ReadFault => Some("modern-headers: a file could not be read\n"),
        Status::WriteFault => Some("modern-headers: the output could not be written\n"),
        Status::NoMemory => Some("modern-headers: out of memory\n"),
        Status::Written | Status::Refused | Status::Usage => None,
    }
}
