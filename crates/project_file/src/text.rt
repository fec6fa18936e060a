// One project file.
ghost use Rattle.std.specs.Prelude.{◌≡◌, ◌≤◌, length, Ok, Err, IfOk, IfErr};
ghost use Rattle.plan_types.specs.Refusal.{RefusesAt};
ghost use Rattle.project_file.specs.Texts.{Reads, bad_cause, fault_at, first_fault};

use crate::part::{ProjectPart, ProjectSaid};
use crate::parts::read_parts;
use cabal_lexer::elements_of;
use plan_types::{Cause, Env, Fault, List};
use std::alloc::Global;

/// A cause and its line.
#[derive(Clone, Copy, Debug, PartialEq, Eq)]
pub(crate) struct FaultLine {
    pub line: u32,
    pub cause: Cause,
}

/// The parts of a text, or its first fault.
pub(crate) fn read_text(alloc: Global, env: &Env, text: &str) -> Result<List<ProjectPart>, Fault>
    requires { length text.now ≤ 1048576 }
    ensures parts { IfOk result (λ parts. Reads env.now text.now (Ok parts)) }
    ensures fault { IfErr result (RefusesAt
        (λ line cause. Reads env.now text.now (Err (fault_at line cause)))) }
{
    let items = elements_of(alloc, text)?;
    let parts = read_parts(alloc, env, items.as_slice())?;
    match first_fault(parts.as_slice()) {
        None => Ok(parts),
        Some(at) => Err(Fault::At {
            line: at.line,
            cause: at.cause,
        }),
    }
}

// The first bad part, since lines rise from part to part.
fn first_fault(parts: &[ProjectPart]) -> Option<FaultLine>
    ensures { result ≡ first_fault parts.now }
{
    for part in parts {
        if let Some(cause) = bad_cause(&part.said) {
            return Some(FaultLine {
                line: part.line,
                cause,
            });
        }
    }
    None
}

fn bad_cause(said: &ProjectSaid) -> Option<Cause>
    ensures { result ≡ bad_cause said.now }
{
    match said {
        ProjectSaid::Bad(cause) => Some(*cause),
        _ => None,
    }
}
