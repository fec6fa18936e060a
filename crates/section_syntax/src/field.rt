// The parts that fields of a section become.

ghost use Rattle.std.specs.Prelude.{◌≡◌, IfOk, List};
ghost use Rattle.std.specs.declared.result.Result.{Result};
ghost use Rattle.plan_types.specs.Bytes.{joined_text};
ghost use Rattle.plan_types.specs.declared.dependency.Dep.{Dep};
ghost use Rattle.plan_types.specs.declared.refusal.Cause.{Cause};
ghost use Rattle.depend_text.specs.Depends.{Depends, DependsFault, Tools, ToolsFault};
ghost use Rattle.section_syntax.specs.Items.{FieldSays, visible};
ghost use Rattle.text_grammar.specs.Outcome.{Read};

use crate::branch::outcome;
use crate::part::Said;
use crate::words::{FieldWord, between_commas, visibility};
use depend_text::{read_depends, read_tools};
use plan_types::{DepKind, List, NoMemory, Spec, Text, joined_text};
use std::alloc::Global;
use text_grammar::boolean;

/// The part that a field inside a section becomes; none if the field isn't read.
pub fn said_by(
    alloc: Global,
    spec: Spec,
    word: FieldWord,
    line: u32,
    values: &List<Text>,
    fits: bool,
) -> Result<Option<Said>, NoMemory>
    ensures { IfOk result (FieldSays spec word line (joined_text values.now) fits) }
{
    let text = joined_text(alloc, values.as_slice())?;
    match word {
        FieldWord::Import => {
            let names = between_commas(alloc, text.as_str())?;
            Ok(Some(Said::Import { names, fits }))
        }
        FieldWord::Depends => Ok(Some(depends(alloc, spec, DepKind::Library, line, &text)?)),
        FieldWord::SetupDepends => Ok(Some(depends(alloc, spec, DepKind::Setup, line, &text)?)),
        FieldWord::ToolDepends => Ok(Some(tools(alloc, spec, line, &text)?)),
        FieldWord::Buildable => Ok(Some(Said::Buildable(boolean(text.as_bytes())))),
        FieldWord::Visibility => Ok(visible(spec, text.as_bytes())),
        FieldWord::Default => Ok(Some(Said::Default(boolean(text.as_bytes())))),
        FieldWord::Manual => Ok(Some(Said::Manual(boolean(text.as_bytes())))),
        FieldWord::BuildTools => Ok(Some(Said::BuildTools)),
        FieldWord::Unread => Ok(None),
    }
}

fn depends(
    alloc: Global,
    spec: Spec,
    kind: DepKind,
    line: u32,
    text: &Text,
) -> Result<Said, NoMemory>
    ensures { IfOk result (λ said. (deps : Result (List Dep) Cause)
        × Read (Depends spec kind line text.now) (DependsFault spec kind line text.now) deps
        × (said ≡ Said.Depends deps)) }
{
    let read = read_depends(alloc, text.as_bytes(), line, kind, spec);
    let found = outcome(read)?;
    Ok(Said::Depends(found))
}

fn tools(alloc: Global, spec: Spec, line: u32, text: &Text) -> Result<Said, NoMemory>
    ensures { IfOk result (λ said. (deps : Result (List Dep) Cause)
        × Read (Tools spec line text.now) (ToolsFault spec line text.now) deps
        × (said ≡ Said.Depends deps)) }
{
    let read = read_tools(alloc, text.as_bytes(), line, spec);
    let found = outcome(read)?;
    Ok(Said::Depends(found))
}

// `visibility` is read from 3.0 on.
fn visible(spec: Spec, text: &[u8]) -> Option<Said>
    ensures { result ≡ visible spec text.now }
{
    if spec.is_old() {
        None
    } else {
        Some(Said::Visibility(visibility(text)))
    }
}
