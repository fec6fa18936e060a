// The text of a replay.
ghost use Rattle.std.specs.Prelude.{◌≡◌, ◌<◌, ◌≤◌, ◌++◌, ℕ, List, length, IfOk, OnOk};
ghost use Rattle.std.specs.Fmt.{decimal};
ghost use Rattle.plan_nodes.specs.declared.node.PlanNode.{PlanNode};
ghost use Rattle.plan_jobs.specs.Events.{Event, starts};
ghost use Rattle.plan_jobs.specs.Board.{AreAfter};
ghost use Rattle.replay_text.specs.Replay.{IsCounted, IsReplay, AppendsEvent, end_line, event_line, fault_word};

use crate::event::JobEvent;
use crate::standing::{EndState, count_of};
use plan_jobs::{JobFault, Jobs};
use plan_nodes::PlanNode;
use plan_types::{NoMemory, Text};
use std::alloc::Global;

/// The text of a replay: a line for each event with its reply, then how many nodes are in each state.
pub fn replay_text(
    alloc: Global,
    nodes: &[PlanNode],
    slots: u32,
    events: &[JobEvent],
) -> Result<Text, NoMemory>
    ensures { IfOk result (IsReplay nodes.now slots events.now) }
{
    let mut jobs = Jobs::new(alloc, nodes, slots)?;
    let mut text = Text::from_str(alloc, "replay\n")?;
    for event in events {
        push_event(alloc, &mut text, &mut jobs, nodes, *event)?;
    }
    push_counts(alloc, &mut text, &jobs, nodes.len())?;
    Ok(text)
}

// The line of one event with its reply.
fn push_event(
    alloc: Global,
    text: &mut Text,
    jobs: &mut Jobs,
    nodes: &[PlanNode],
    event: JobEvent,
) -> Result<(), NoMemory>
    requires { (slots : ℕ) × (told : List Event) × AreAfter nodes.now slots told jobs.old }
    ensures { OnOk result ((slots : ℕ) (told : List Event) → AreAfter nodes.now slots told jobs.old
        → AppendsEvent nodes.now slots told event jobs.new text.old text.new) }
{
    match event {
        JobEvent::Start => {
            let reply = jobs.start_next();
            push_start(alloc, text, nodes, reply)
        }
        JobEvent::Completed(place) => {
            let reply = jobs.completed(place as u64);
            push_end(alloc, text, "completed ", place, reply)
        }
        JobEvent::Failed(place) => {
            let reply = jobs.failed(place as u64);
            push_end(alloc, text, "failed ", place, reply)
        }
    }
}

// Which node starts, or why none does.
fn push_start(
    alloc: Global,
    text: &mut Text,
    nodes: &[PlanNode],
    reply: Result<u64, JobFault>,
) -> Result<(), NoMemory>
    requires { IfOk reply (λ place. place < length nodes.now) }
    ensures { OnOk result (text.new ≡ text.old ++ event_line nodes.now (starts reply)) }
{
    text.push_str("start ")?;
    match reply {
        Ok(place) => {
            push_number(alloc, text, place + 1)?;
            text.push_str(" ")?;
            text.push_str(nodes[place as usize].id.as_str())?;
        }
        Err(fault) => text.push_str(fault_word(fault))?,
    }
    text.push_str("\n")
}

// A report on a node, and why it is refused.
fn push_end(
    alloc: Global,
    text: &mut Text,
    word: &str,
    place: u32,
    reply: Result<(), JobFault>,
) -> Result<(), NoMemory>
    ensures { OnOk result (text.new ≡ text.old ++ end_line word.now place reply) }
{
    text.push_str(word)?;
    push_number(alloc, text, u64::from(place) + 1)?;
    if let Err(fault) = reply {
        text.push_str(" ")?;
        text.push_str(fault_word(fault))?;
    }
    text.push_str("\n")
}

fn fault_word(fault: JobFault) -> &'static str
    ensures { result.now ≡ fault_word fault }
{
    match fault {
        JobFault::NoneReady => "NoneReady",
        JobFault::NoSlot => "NoSlot",
        JobFault::NotRunning => "NotRunning",
    }
}

// How many nodes are completed, have failed, run, wait and are held.
fn push_counts(alloc: Global, text: &mut Text, jobs: &Jobs, nodes: usize) -> Result<(), NoMemory>
    requires { nodes ≤ length jobs.now.states }
    ensures { OnOk result ((plan : List PlanNode) (slots : ℕ) (told : List Event) → AreAfter plan slots told jobs.now
        → IsCounted plan told nodes text.old text.new) }
{
    push_count(
        alloc,
        text,
        "completed ",
        count_of(jobs, nodes, EndState::Completed),
    )?;
    push_count(
        alloc,
        text,
        " failed ",
        count_of(jobs, nodes, EndState::Failed),
    )?;
    push_count(
        alloc,
        text,
        " running ",
        count_of(jobs, nodes, EndState::Running),
    )?;
    push_count(
        alloc,
        text,
        " waiting ",
        count_of(jobs, nodes, EndState::Waiting),
    )?;
    push_count(alloc, text, " held ", count_of(jobs, nodes, EndState::Held))?;
    text.push_str("\n")
}

fn push_count(alloc: Global, text: &mut Text, word: &str, count: usize) -> Result<(), NoMemory>
    ensures { OnOk result (text.new ≡ text.old ++ (word.now ++ decimal count)) }
{
    text.push_str(word)?;
    push_number(alloc, text, count as u64)
}

fn push_number(alloc: Global, text: &mut Text, number: u64) -> Result<(), NoMemory>
    ensures { OnOk result (text.new ≡ text.old ++ decimal number) }
{
    let digits = format!(in alloc; "{number}")?;
    text.push_str(digits.as_str())
}
