// Reading a file of events.
ghost use Rattle.std.specs.Prelude.{◌≡◌, ◌+◌, ◌≤◌, ℕ, Err, length, OnOk, MatchOption, MatchResult};
ghost use Rattle.std.specs.Fmt.{decimal};
ghost use Rattle.std.specs.Str.Lines.{lines};
ghost use Rattle.version_range.specs.Version.{IsNumber};
ghost use Rattle.replay_text.specs.Reading.{Adds, AreEvents, BadAt, FirstBad, IsLineOf, NoEvent};

use crate::event::{EventsFault, JobEvent};
use crate::lines::first_line;
use plan_types::List;
use std::alloc::Global;
use version_range::number_at;

/// The events of a file, one a line. Empty lines are skipped.
pub fn read_events(alloc: Global, bytes: &[u8]) -> Result<List<JobEvent>, EventsFault>
    ensures read { MatchResult result (AreEvents (lines bytes.now)) (FirstBad (lines bytes.now)) }
    ensures within { (number : ℕ) → result ≡ Err (EventsFault.Bad number) → number ≤ length bytes.now }
{
    let mut events = List::new(alloc);
    let mut number = 0;
    let mut rest = bytes;
    while let Some((line, more)) = first_line(rest) {
        number += 1;
        add_event(&mut events, line, number)?;
        rest = more;
    }
    Ok(events)
}

// Adds the event of a line that isn't empty.
fn add_event(events: &mut List<JobEvent>, line: &[u8], number: usize) -> Result<(), EventsFault>
    ensures ok { OnOk result (Adds line.now events.old events.new) }
    ensures err { MatchResult result (λ _. Unit {0}) (BadAt line.now number) }
{
    if line.is_empty() {
        return Ok(());
    }
    match event_of(line) {
        Some(event) => Ok(events.push(event)?),
        None => Err(EventsFault::Bad(number)),
    }
}

// The event of a line.
fn event_of(line: &[u8]) -> Option<JobEvent>
    ensures { MatchOption result (NoEvent line.now) (λ event. IsLineOf event line.now) }
{
    if line == b"start".as_slice() {
        Some(JobEvent::Start)
    } else if let Some(number) = line.strip_prefix(b"completed ") {
        Some(JobEvent::Completed(place_of(number)?))
    } else {
        let number = line.strip_prefix(b"failed ")?;
        Some(JobEvent::Failed(place_of(number)?))
    }
}

// The place of a node's number. The number has one to nine digits, the first not 0.
fn place_of(text: &[u8]) -> Option<u32>
    ensures { MatchOption result ((place : ℕ) → IsNumber (place + 1) → text.now ≡ decimal (place + 1) → ⊥)
        (λ place. IsNumber (place + 1) × (text.now ≡ decimal (place + 1))) }
{
    let (number, rest) = number_at(text)?;
    if number == 0 || !rest.is_empty() {
        return None;
    }
    Some(number - 1)
}
