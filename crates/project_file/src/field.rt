// The part of a field.
ghost use Rattle.std.specs.Prelude.{◌≡◌, IfOk, MatchResult};
ghost use Rattle.plan_types.specs.Bytes.{joined_text};
ghost use Rattle.plan_types.specs.declared.refusal.Cause.{Cause};
ghost use Rattle.project_file.specs.Words.{field_word};
ghost use Rattle.project_file.specs.Fields.{FieldSays, KindSays, or_bad, switch_said};
ghost use Rattle.text_grammar.specs.Words.{words};
ghost use Rattle.version_range.specs.Number.{limit_of};

use crate::part::{ProjectSaid, Switch};
use crate::words::{FieldKind, ProjectFieldWord, field_word};
use constraint_text::{read_constraints, read_named, read_relax};
use plan_types::{Cause, List, NoMemory, Text, TextFault, joined_text};
use std::alloc::Global;
use text_grammar::{Between, boolean, words};
use version_range::limit_of;

/// The part of a field by its name; none for an unknown field. Values are joined only for a field that is read.
pub(crate) fn said_by(
    alloc: Global,
    name: &Text,
    values: &List<Text>,
) -> Result<Option<ProjectSaid>, NoMemory>
    ensures { IfOk result (FieldSays (field_word name.now) name.now (joined_text values.now)) }
{
    match field_word(name.as_str()) {
        ProjectFieldWord::Read(kind) => {
            let text = joined_text(alloc, values.as_slice())?;
            let said = said_as(alloc, kind, &text)?;
            Ok(Some(said))
        }
        ProjectFieldWord::Warned => Ok(Some(ProjectSaid::Warning(name.copy()?))),
        ProjectFieldWord::Unsupported => Ok(Some(ProjectSaid::Bad(Cause::Unsupported))),
        ProjectFieldWord::Unread => Ok(None),
    }
}

fn said_as(alloc: Global, kind: FieldKind, text: &Text) -> Result<ProjectSaid, NoMemory>
    ensures { IfOk result (KindSays kind text.now) }
{
    let bytes = text.as_bytes();
    match kind {
        FieldKind::Packages => entries(alloc, text, false),
        FieldKind::OptionalPackages => entries(alloc, text, true),
        FieldKind::Extra => said_of(read_named(alloc, bytes), ProjectSaid::Extra),
        FieldKind::Constraints => said_of(read_constraints(alloc, bytes), ProjectSaid::Constraints),
        FieldKind::Preferences => said_of(read_named(alloc, bytes), ProjectSaid::Preferences),
        FieldKind::Newer => said_of(read_relax(alloc, bytes), ProjectSaid::Newer),
        FieldKind::Older => said_of(read_relax(alloc, bytes), ProjectSaid::Older),
        FieldKind::Switch(which) => Ok(switch_said(which, boolean(bytes))),
        FieldKind::Limit => Ok(limit_said(bytes)),
    }
}

fn entries(alloc: Global, text: &Text, optional: bool) -> Result<ProjectSaid, NoMemory>
    ensures { IfOk result (λ said. said ≡ ProjectSaid.Entries (words Between.SpacesAndCommas text.now) optional) }
{
    let texts = words(alloc, Between::SpacesAndCommas, text.as_str())?;
    Ok(ProjectSaid::Entries { texts, optional })
}

// What a list says that was read, or its fault.
fn said_of<T: Drop, F: FnOnce(List<T>) -> ProjectSaid>(
    read: Result<List<T>, TextFault>,
    said: F,
) -> Result<ProjectSaid, NoMemory>
    requires { F.IsAlwaysCallable said }
    ensures { IfOk result (λ told. MatchResult read (λ found. F.post said found told)
        (λ fault. (cause : Cause) × (fault ≡ TextFault.Bad cause) × (told ≡ ProjectSaid.Bad cause))) }
{
    match read {
        Ok(found) => {
            let told = said(found);
            Ok(told)
        }
        Err(TextFault::Bad(cause)) => Ok(ProjectSaid::Bad(cause)),
        Err(TextFault::NoMemory) => Err(NoMemory),
    }
}

fn switch_said(which: Switch, value: Option<bool>) -> ProjectSaid
    ensures { result ≡ switch_said which value }
{
    match value {
        Some(on) => ProjectSaid::Switch { which, on },
        None => ProjectSaid::Bad(Cause::BadField),
    }
}

fn limit_said(text: &[u8]) -> ProjectSaid
    ensures { result ≡ or_bad ProjectSaid.Limit (limit_of text.now) }
{
    match limit_of(text) {
        Some(limit) => ProjectSaid::Limit(limit),
        None => ProjectSaid::Bad(Cause::BadField),
    }
}
