// The top call: reads the words, runs their command, and writes its output.
ghost use Rattle.std.specs.Prelude.{◌≡◌, ◌≢◌, ◌≤◌, ℕ, IfOk, IsErrOf, Some, None, true, false};
ghost use Rattle.outside_folder.specs.Calls.{Leaves};
ghost use Rattle.outside_folder.specs.Faults.{Rose};
ghost use Rattle.outside_folder.specs.Files.{Bytes, Files};
ghost use Rattle.plan_types.specs.declared.limit.Limit.{Limit as TheLimit};
ghost use Rattle.command_line.specs.Reading.{IsBounded, reading};
ghost use Rattle.command_line.specs.declared.reading.Command.TheVariants.{Freeze, Generate, Plan, Replay};
ghost use Rattle.command_line.specs.declared.reading.Options.{Options as PlanOptions};
ghost use Rattle.plan_command.specs.Output.{IsUsageEnd, usage};
ghost use Rattle.plan_command.specs.Form.{form_of};
ghost use Rattle.plan_command.specs.Asked.{picking_of};
ghost use Rattle.plan_search.specs.declared.search.Picking.TheVariants.{Least, MostMet};
ghost use Rattle.plan_command.specs.Meaning.{Means, MeansFreeze, MeansGenerated, MeansReplay};
ghost use Rattle.plan_command.specs.Run.{BuildsInOrder, IsOutputOf, IsOutputOfCommand, MayPrint, Prints, Reads};
ghost use Rattle.plan_command.specs.Status.{status_of};

use crate::form::form_of;
use crate::freeze::output_of_freeze;
use crate::generate::output_of_generate;
use crate::output::Output;
use crate::plan::output_of_plan;
use crate::replay::output_of_replay;
use crate::{Answer, Status};
use command_line::{Command, WordsFault, read_words};
use outside_folder::{Folder, Sink, Trouble, write_all};
use plan_types::Text;
use std::alloc::Global;

/// The line for words without a reading.
const USAGE: &str = "usage: cabal-plan plan or generate, with options\n";

/// Runs the command of the words over a folder, and writes its output: a plan or the replay of its build, a conflict,
/// that the search met its limit, a refusal, or the usage line for words without a reading.
pub fn run<F: Folder, S: Sink>(alloc: Global, words: &[Text], folder: &mut F, out: &mut S) -> Status
    // For `plan` over an observable folder: the plan is that of the first complete, valid assignment. No plan is
    // reported only if no such assignment exists. Without a limit the search never gives up.
    ensures headline { (options : PlanOptions) (files : Files)
        → reading words.now ≡ Some (Plan options) → options.count_conflicts ≡ false → F.tells folder.old ≡ Some files
        → Prints (Means Least options.minimize (form_of options) options files) (S.bytes out.old)
        (S.bytes out.new) result }

    // The same with counted conflicts, but the plan is that of some complete, valid assignment.
    ensures counting { (options : PlanOptions) (files : Files)
        → reading words.now ≡ Some (Plan options) → options.count_conflicts ≡ true → F.tells folder.old ≡ Some files
        → Prints (Means MostMet options.minimize (form_of options) options files) (S.bytes out.old)
        (S.bytes out.new) result }

    // For `freeze`: the old freeze file, and then the constraints of the choices of the first complete, valid
    // assignment. Laws of `frozen_plan` show what these leave: nothing becomes valid that wasn't, the first
    // assignment stays first, and a search without a limit over the same index finds the same choices.
    ensures frozen { (options : PlanOptions) (files : Files)
        → reading words.now ≡ Some (Freeze options) → F.tells folder.old ≡ Some files
        → Prints (MeansFreeze options files) (S.bytes out.old) (S.bytes out.new) result }

    // For `replay`: a build of the plan of the first complete, valid assignment, at the events of the file.
    ensures replayed { (options : PlanOptions) (events : Bytes) (slots : ℕ) (files : Files)
        → reading words.now ≡ Some (Replay options events slots) → F.tells folder.old ≡ Some files
        → Prints (MeansReplay options events slots files) (S.bytes out.old) (S.bytes out.new) result }

    // The output is that of the words and the files read for them, whether or not a count of faults rose.
    ensures observed { (files : Files) → Reads (reading words.now) (F.tells folder.old) files
        → Prints (IsOutputOf words.now files) (S.bytes out.old) (S.bytes out.new) result }

    // Over any folder, the run writes one text, a prefix of it, or nothing. The text is the line of a refusal, the
    // finding of a search over some ready task in the command's own form, or the usage line.
    ensures one_text { Prints (MayPrint (reading words.now)) (S.bytes out.old) (S.bytes out.new) result }

    // In any plan, with a limit or without, each identifier that a node needs is printed before the node.
    ensures in_order { Prints (BuildsInOrder (reading words.now)) (S.bytes out.old) (S.bytes out.new) result }

    // `generate` plans the folder generated from its number, and leaves the given folder as it was.
    ensures generated { (number : ℕ) (limit : TheLimit) → reading words.now ≡ Some (Generate number limit)
        → Prints (MeansGenerated number limit) (S.bytes out.old) (S.bytes out.new) result }
    ensures folder_untouched { (number : ℕ) (limit : TheLimit) → reading words.now ≡ Some (Generate number limit)
        → (folder.new ≡ folder.old) × (result ≢ Status.ReadFault) }

    // No failure is hidden: the folder's count of faults rises only with the status `ReadFault`, and the sink's only
    // with `WriteFault`.
    ensures folder { Leaves F.tells F.faults folder.old folder.new (result ≡ Status.ReadFault) }
    ensures sink { S.faults out.old ≤ S.faults out.new }
    ensures sink_unchanged { result ≢ Status.WriteFault → S.faults out.new ≡ S.faults out.old }
    ensures write_fault { result ≡ Status.WriteFault → Rose (S.faults out.old) (S.faults out.new) }
    ensures usage { result ≡ Status.Usage → reading words.now ≡ None }
    ensures no_reading { reading words.now ≡ None → IsUsageEnd result }
{
    match read_words(alloc, words) {
        Ok(command) => perform(alloc, command, folder, out),
        Err(WordsFault::Usage) => print_usage(out),
        Err(WordsFault::NoMemory) => Status::NoMemory,
    }
}

/// Writes the usage line, for words without a reading and for words that aren't UTF-8.
pub fn print_usage<S: Sink>(out: &mut S) -> Status
    ensures prints { Prints (λ output. output ≡ usage) (S.bytes out.old) (S.bytes out.new) result }
    ensures sink { S.faults out.old ≤ S.faults out.new }
    ensures sink_unchanged { result ≢ Status.WriteFault → S.faults out.new ≡ S.faults out.old }
    ensures write_fault { result ≡ Status.WriteFault → Rose (S.faults out.old) (S.faults out.new) }
    ensures status { IsUsageEnd result }
{
    match write_all(out, USAGE.as_bytes()) {
        Ok(()) => Status::of(Answer::Usage),
        Err(_) => Status::WriteFault,
    }
}

fn perform<F: Folder, S: Sink>(
    alloc: Global,
    command: Command,
    folder: &mut F,
    out: &mut S,
) -> Status
    requires { IsBounded command }
    ensures headline { (options : PlanOptions) (files : Files) → command ≡ Plan options
        → F.tells folder.old ≡ Some files
        → Prints (Means (picking_of options) options.minimize (form_of options) options files) (S.bytes out.old)
        (S.bytes out.new) result }
    ensures frozen { (options : PlanOptions) (files : Files) → command ≡ Freeze options
        → F.tells folder.old ≡ Some files
        → Prints (MeansFreeze options files) (S.bytes out.old) (S.bytes out.new) result }
    ensures replayed { (options : PlanOptions) (events : Bytes) (slots : ℕ) (files : Files)
        → command ≡ Replay options events slots → F.tells folder.old ≡ Some files
        → Prints (MeansReplay options events slots files) (S.bytes out.old) (S.bytes out.new) result }
    ensures observed { (files : Files) → Reads (Some command) (F.tells folder.old) files
        → Prints (IsOutputOfCommand (Some command) files) (S.bytes out.old) (S.bytes out.new) result }
    ensures generated { (number : ℕ) (limit : TheLimit) → command ≡ Generate number limit
        → Prints (MeansGenerated number limit) (S.bytes out.old) (S.bytes out.new) result }
    ensures folder_untouched { (number : ℕ) (limit : TheLimit) → command ≡ Generate number limit
        → (folder.new ≡ folder.old) × (result ≢ Status.ReadFault) }
    ensures one_text { Prints (MayPrint (Some command)) (S.bytes out.old) (S.bytes out.new) result }
    ensures folder { Leaves F.tells F.faults folder.old folder.new (result ≡ Status.ReadFault) }
    ensures sink { S.faults out.old ≤ S.faults out.new }
    ensures sink_unchanged { result ≢ Status.WriteFault → S.faults out.new ≡ S.faults out.old }
    ensures write_fault { result ≡ Status.WriteFault → Rose (S.faults out.old) (S.faults out.new) }
{
    match output_of(alloc, command, folder) {
        Ok(output) => print(&output, out),
        Err(Trouble::Failed) => Status::ReadFault,
        Err(Trouble::NoMemory) => Status::NoMemory,
    }
}

// The output of a command.
fn output_of<F: Folder>(alloc: Global, command: Command, folder: &mut F) -> Result<Output, Trouble>
    requires { IsBounded command }
    ensures headline { (options : PlanOptions) (files : Files) → command ≡ Plan options
        → F.tells folder.old ≡ Some files
        → IfOk result (Means (picking_of options) options.minimize (form_of options) options files) }
    ensures frozen { (options : PlanOptions) (files : Files) → command ≡ Freeze options
        → F.tells folder.old ≡ Some files
        → IfOk result (MeansFreeze options files) }
    ensures replayed { (options : PlanOptions) (events : Bytes) (slots : ℕ) (files : Files)
        → command ≡ Replay options events slots → F.tells folder.old ≡ Some files
        → IfOk result (MeansReplay options events slots files) }
    ensures observed { (files : Files) → Reads (Some command) (F.tells folder.old) files
        → IfOk result (IsOutputOfCommand (Some command) files) }
    ensures generated { (number : ℕ) (limit : TheLimit) → command ≡ Generate number limit
        → IfOk result (MeansGenerated number limit) }
    ensures folder_untouched { (number : ℕ) (limit : TheLimit) → command ≡ Generate number limit
        → (folder.new ≡ folder.old) × (IsErrOf result Trouble.Failed → ⊥) }
    ensures form { IfOk result (MayPrint (Some command)) }
    ensures folder { Leaves F.tells F.faults folder.old folder.new (IsErrOf result Trouble.Failed) }
{
    match command {
        Command::Plan(options) => {
            let form = form_of(&options);
            output_of_plan(alloc, &form, options, folder)
        }
        Command::Generate { number, limit } => {
            let output = output_of_generate(alloc, number, limit)?;
            Ok(output)
        }
        Command::Freeze(options) => output_of_freeze(alloc, options, folder),
        Command::Replay {
            options,
            events,
            slots,
        } => output_of_replay(alloc, options, &events, slots, folder),
    }
}

// Writes an output, and returns the status of its answer if the whole text was written.
fn print<S: Sink>(output: &Output, out: &mut S) -> Status
    ensures prints { Prints (λ printed. printed ≡ output.now) (S.bytes out.old) (S.bytes out.new) result }
    ensures sink { S.faults out.old ≤ S.faults out.new }
    ensures sink_unchanged { result ≢ Status.WriteFault → S.faults out.new ≡ S.faults out.old }
    ensures write_fault { result ≡ Status.WriteFault → Rose (S.faults out.old) (S.faults out.new) }
    ensures status { result ≢ Status.WriteFault → result ≡ status_of output.now.answer }
    ensures no_read_fault { result ≢ Status.ReadFault }
{
    match write_all(out, output.text.as_bytes()) {
        Ok(()) => Status::of(output.answer),
        Err(_) => Status::WriteFault,
    }
}
