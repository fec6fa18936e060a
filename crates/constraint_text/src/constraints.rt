// The constraints of a project.
ghost use Rattle.std.specs.Prelude.{◌≡◌, ℕ, List, ◌≢◌, ◌++◌, map, codes, true, false, IfOk, IfErr, IfSome, IfNone, MatchResult};
ghost use Rattle.std.specs.Char.{to_ascii_lowercase};
ghost use Rattle.plan_types.specs.declared.constraint.Constraint.{Constraint};
ghost use Rattle.plan_types.specs.declared.constraint.Scope.{Scope};
ghost use Rattle.plan_types.specs.declared.constraint.What.{What};
ghost use Rattle.plan_types.specs.declared.refusal.Cause.{Cause};
ghost use Rattle.plan_types.specs.declared.refusal.Cause.TheVariants.{BadConstraint};
ghost use Rattle.plan_types.specs.Name.{is_flag_name, is_package_name};
ghost use Rattle.plan_types.specs.Refusal.{Refuses};
ghost use Rattle.constraint_text.specs.Faults.{IsBadConstraint};
ghost use Rattle.entry_text.specs.Words.{run, behind as after, is_name_byte, words};
ghost use Rattle.constraint_text.specs.Constraints.{Constraints, ConstraintsFault, Target, scope_of, required_by, asked_alone, Required, Requires};

use entry_text::{
    EntryKind, component_text, name_at, name_run, package_text, read_each, read_entries, words,
};
use plan_types::{
    Cause, Constraint, FlagSet, List, NoMemory, Scope, Spec, Text, TextFault, What, is_flag_name,
    is_package_name,
};
use std::alloc::Global;
use text_grammar::byte_after;
use version_range::read_range;

/// Reads the text of `constraints`.
pub fn read_constraints(alloc: Global, text: &[u8]) -> Result<List<Constraint>, TextFault>
    ensures entries { IfOk result (Constraints text.now) }
    ensures fault { IfErr result (Refuses (ConstraintsFault text.now)) }
    ensures exactly_entries { (constraints : List Constraint) → Constraints text.now constraints →
        MatchResult result (λ found. found ≡ constraints) (Refuses (λ _. ⊥)) }
    ensures exactly_faults { (cause : Cause) → ConstraintsFault text.now cause →
        MatchResult result (λ _. ⊥) (Refuses (λ why. why ≡ cause)) }
{
    read_entries(alloc, &ConstraintRow, text)
}

#[derive(Clone, Copy)]
struct ConstraintRow;

impl EntryKind for ConstraintRow {
    ghost use Rattle.constraint_text.specs.Faults.{IsBadConstraint};
    ghost use Rattle.constraint_text.specs.Constraints.{ConstraintEntry};

    type Item = Constraint;

    ghost stands = { λ row. ConstraintEntry };

    ghost fails = { λ row. IsBadConstraint ConstraintEntry };

    fn read(&self, alloc: Global, part: &[u8]) -> Result<Constraint, TextFault> {
        let (scope, name, rest) = target(alloc, part)?;
        if !is_package_name(name) {
            return Err(TextFault::Bad(Cause::BadConstraint));
        }
        let what = what(alloc, rest)?;
        let package = package_text(alloc, name)?;
        Ok(Constraint {
            scope,
            package,
            what,
        })
    }
}

// The scope, the name of the package, and the rest.
fn target<'a>(alloc: Global, text: &'a [u8]) -> Result<(Scope, &'a [u8], &'a [u8]), TextFault>
    ensures found { IfOk result (λ p. Target text.now p.0 p.1.now p.2.now) }
    ensures fault { IfErr result (Refuses (λ cause. (cause ≡ BadConstraint)
        × ((scope : Scope) («package» rest : List ℕ) → Target text.now scope «package» rest → ⊥))) }
{
    let (name, behind) = name_at(text);
    match byte_after(behind, b'.') {
        Some(more) => match scope_of(name) {
            None => Err(TextFault::Bad(Cause::BadConstraint)),
            Some(scope) => {
                let (package, rest) = name_run(more);
                Ok((scope, package, rest))
            }
        },
        None => match byte_after(behind, b':') {
            None => Ok((Scope::Top, name, behind)),
            Some(_) => setup_of(alloc, name, behind),
        },
    }
}

fn scope_of(word: &[u8]) -> Option<Scope>
    ensures { result ≡ scope_of word.now }
{
    if word == b"any".as_slice() {
        Some(Scope::Any)
    } else if word == b"setup".as_slice() {
        Some(Scope::Setup)
    } else {
        None
    }
}

// The scope of a package's setup script.
fn setup_of<'a>(
    alloc: Global,
    name: &[u8],
    behind: &'a [u8],
) -> Result<(Scope, &'a [u8], &'a [u8]), TextFault>
    ensures found { IfOk result (λ p. (more : List ℕ) × (behind.now ≡ codes ":setup." ++ more)
        × (is_package_name name.now ≡ true)
        × (p.0 ≡ Scope.SetupOf name.now) × (p.1.now ≡ run is_name_byte more)
        × (p.2.now ≡ after is_name_byte more)) }
    ensures fault { IfErr result (Refuses (λ cause. (cause ≡ BadConstraint)
        × ((more : List ℕ) → behind.now ≡ codes ":setup." ++ more → is_package_name name.now ≡ true → ⊥))) }
{
    let Some(more) = behind_setup(behind) else {
        return Err(TextFault::Bad(Cause::BadConstraint));
    };
    if !is_package_name(name) {
        return Err(TextFault::Bad(Cause::BadConstraint));
    }
    let owner = package_text(alloc, name)?;
    let (package, rest) = name_run(more);
    Ok((Scope::SetupOf(owner), package, rest))
}

fn behind_setup(text: &[u8]) -> Option<&[u8]>
    ensures some { IfSome result (λ rest. text.now ≡ codes ":setup." ++ rest.now) }
    ensures none { IfNone result ((rest : List ℕ) → text.now ≢ codes ":setup." ++ rest) }
{
    text.strip_prefix(b":setup.".as_slice())
}

// A range; if the text is none, a word or flags.
fn what(alloc: Global, text: &[u8]) -> Result<What, TextFault>
    ensures found { IfOk result (Requires text.now) }
    ensures fault { IfErr result (Refuses (IsBadConstraint Requires text.now)) }
{
    match read_range(alloc, text, Spec::V3_0) {
        Ok(range) => Ok(What::Range(range)),
        Err(TextFault::NoMemory) => Err(TextFault::NoMemory),
        Err(TextFault::Bad(_)) => word_or_flags(alloc, text),
    }
}

fn word_or_flags(alloc: Global, text: &[u8]) -> Result<What, TextFault>
    ensures found { IfOk result (Required (words text.now)) }
    ensures fault { IfErr result (Refuses
        (λ cause. (cause ≡ BadConstraint) × ((what : What) → Required (words text.now) what → ⊥))) }
{
    let words = words(alloc, text)?;
    asked(alloc, words.as_slice())
}

fn asked(alloc: Global, words: &[&[u8]]) -> Result<What, TextFault>
    ensures found { IfOk result (Required (map (λ word. word.now) words.now)) }
    ensures fault { IfErr result (Refuses (λ cause. (cause ≡ BadConstraint)
        × ((what : What) → Required (map (λ word. word.now) words.now) what → ⊥))) }
{
    match asked_alone(words) {
        Some(what) => Ok(what),
        None => {
            let flags = read_each(alloc, &FlagRow, words)?;
            Ok(What::Flags(flags))
        }
    }
}

fn asked_alone(words: &[&[u8]]) -> Option<What>
    ensures { result ≡ asked_alone (map (λ word. word.now) words.now) }
{
    match words {
        [word] => required_by(word),
        _ => None,
    }
}

fn required_by(word: &[u8]) -> Option<What>
    ensures { result ≡ required_by word.now }
{
    if word == b"installed".as_slice() {
        Some(What::Installed)
    } else if word == b"source".as_slice() {
        Some(What::Source)
    } else if word == b"test".as_slice() {
        Some(What::Tests)
    } else if word == b"bench".as_slice() {
        Some(What::Benches)
    } else {
        None
    }
}

#[derive(Clone, Copy)]
struct FlagRow;

impl EntryKind for FlagRow {
    ghost use Rattle.constraint_text.specs.Faults.{IsBadConstraint};
    ghost use Rattle.constraint_text.specs.Constraints.{Flag};

    type Item = FlagSet;

    ghost stands = { λ row. Flag };

    ghost fails = { λ row. IsBadConstraint Flag };

    fn read(&self, alloc: Global, part: &[u8]) -> Result<FlagSet, TextFault> {
        if let Some(name) = byte_after(part, b'+') {
            return flag(alloc, name, true);
        }
        match byte_after(part, b'-') {
            None => Err(TextFault::Bad(Cause::BadConstraint)),
            Some(name) => flag(alloc, name, false),
        }
    }
}

fn flag(alloc: Global, name: &[u8], on: bool) -> Result<FlagSet, TextFault>
    ensures found { IfOk result (λ set. (is_flag_name name.now ≡ true)
        × (set ≡ record { name = map to_ascii_lowercase name.now; on = on })) }
    ensures fault { IfErr result (Refuses
        (λ cause. (cause ≡ BadConstraint) × (is_flag_name name.now ≡ false))) }
{
    if !is_flag_name(name) {
        return Err(TextFault::Bad(Cause::BadConstraint));
    }
    let name = flag_text(alloc, name)?;
    Ok(FlagSet { name, on })
}

// The name of a flag, in lower case.
fn flag_text(alloc: Global, name: &[u8]) -> Result<Text, NoMemory>
    requires { is_flag_name name.now ≡ true }
    ensures { IfOk result (λ text. text ≡ map to_ascii_lowercase name.now) }
{
    let text = component_text(alloc, name)?;
    let lower = text.as_str().to_ascii_lowercase(alloc)?;
    Ok(Text::from_string(lower))
}
