// The relaxings of a project.
ghost use Rattle.std.specs.Prelude.{◌≡◌, ◌≢◌, ◌∷◌, ◌++◌, ◌+◌, ◌<◌, ◌≤◌, [], ℕ, List, map, codes, length, drop, slice_index, true, false, IfOk, IfErr, IfSome, IfNone, MatchResult, Option};
ghost use Rattle.std.specs.List.{filter_map, list_all, prefix_len};
ghost use Rattle.plan_types.specs.declared.dependency.Relax.{Relax};
ghost use Rattle.plan_types.specs.declared.dependency.RelaxOwner.{RelaxOwner};
ghost use Rattle.plan_types.specs.declared.refusal.Cause.{Cause};
ghost use Rattle.plan_types.specs.declared.refusal.Cause.TheVariants.{BadConstraint};
ghost use Rattle.plan_types.specs.declared.version.Version.{Version};
ghost use Rattle.plan_types.specs.Bytes.{same_text};
ghost use Rattle.plan_types.specs.Name.{is_package_name};
ghost use Rattle.version_range.specs.Version.{is_version, version_text};
ghost use Rattle.plan_types.specs.Refusal.{Refuses};
ghost use Rattle.constraint_text.specs.Faults.{IsBadConstraint};
ghost use Rattle.entry_text.specs.Words.{run, behind, words};
ghost use Rattle.constraint_text.specs.Relaxes.{Relaxes, RelaxFault, relaxing_word, is_no_colon, is_no_dash, Release, Owner, Dependency, RelaxedBy, RelaxEntry};

use entry_text::{EntryKind, package_text, read_entries, words};
use plan_types::{
    Cause, List, NoMemory, Relax, RelaxOwner, Text, TextFault, Version, is_package_name,
};
use std::alloc::Global;
use text_grammar::byte_after;
use version_range::read_version;

/// Reads the text of `allow-newer` or of `allow-older`.
pub fn read_relax(alloc: Global, text: &[u8]) -> Result<List<Relax>, TextFault>
    ensures entries { IfOk result (Relaxes text.now) }
    ensures fault { IfErr result (Refuses (RelaxFault text.now)) }
    ensures exactly_entries { (relaxes : List Relax) → Relaxes text.now relaxes →
        MatchResult result (λ found. found ≡ relaxes) (Refuses (λ _. ⊥)) }
    ensures exactly_faults { (cause : Cause) → RelaxFault text.now cause →
        MatchResult result (λ _. ⊥) (Refuses (λ why. why ≡ cause)) }
{
    let each = read_entries(alloc, &RelaxRow, text)?;
    let found = present(alloc, each)?;
    Ok(found)
}

// The relaxings without the entries that relax nothing.
fn present(alloc: Global, each: List<Option<Relax>>) -> Result<List<Relax>, NoMemory>
    ensures { IfOk result (λ found. found ≡ filter_map (λ relax. relax) each) }
{
    let found: Vec<Relax> = each
        .into_vec()
        .into_iter()
        .filter_map(|relax| relax)
        .collect(alloc)?;
    Ok(List::from_vec(found))
}

#[derive(Clone, Copy)]
struct RelaxRow;

impl EntryKind for RelaxRow {
    ghost use Rattle.constraint_text.specs.Faults.{IsBadConstraint};
    ghost use Rattle.constraint_text.specs.Relaxes.{RelaxEntry};

    type Item = Option<Relax>;

    ghost stands = { λ row. RelaxEntry };

    ghost fails = { λ row. IsBadConstraint RelaxEntry };

    fn read(&self, alloc: Global, part: &[u8]) -> Result<Option<Relax>, TextFault> {
        let words = words(alloc, part)?;
        relaxed(alloc, words.as_slice())
    }
}

fn relaxed(alloc: Global, words: &[&[u8]]) -> Result<Option<Relax>, TextFault>
    ensures found { IfOk result (λ found. (word : List ℕ) × (map (λ word. word.now) words.now ≡ word ∷ [])
        × RelaxedBy word found) }
    ensures fault { IfErr result (Refuses (λ cause. (cause ≡ BadConstraint)
        × ((word : List ℕ) (found : Option Relax) → map (λ word. word.now) words.now ≡ word ∷ []
        → RelaxedBy word found → ⊥))) }
{
    match words {
        [word] => relaxed_by(alloc, word),
        _ => Err(TextFault::Bad(Cause::BadConstraint)),
    }
}

fn relaxed_by(alloc: Global, word: &[u8]) -> Result<Option<Relax>, TextFault>
    ensures found { IfOk result (RelaxedBy word.now) }
    ensures fault { IfErr result (Refuses (IsBadConstraint RelaxedBy word.now)) }
{
    match relaxing_word(word) {
        Some(true) => Ok(Some(Relax {
            owner: RelaxOwner::Any,
            dep: None,
        })),
        Some(false) => Ok(None),
        None => {
            let relax = dependency(alloc, word)?;
            Ok(Some(relax))
        }
    }
}

// Whether a word relaxes all dependencies or none.
fn relaxing_word(word: &[u8]) -> Option<bool>
    ensures { result ≡ relaxing_word word.now }
{
    if word.eq_ignore_ascii_case(b"all")
        || word.eq_ignore_ascii_case(b"*")
        || word.eq_ignore_ascii_case(b"true")
    {
        Some(true)
    } else if word.eq_ignore_ascii_case(b"none") || word.eq_ignore_ascii_case(b"false") {
        Some(false)
    } else {
        None
    }
}

fn dependency(alloc: Global, word: &[u8]) -> Result<Relax, TextFault>
    ensures found { IfOk result (Dependency word.now) }
    ensures fault { IfErr result (Refuses (IsBadConstraint Dependency word.now)) }
{
    let (front, behind) = owner_run(word);
    if behind.is_empty() {
        return of_any(alloc, word);
    }
    if is_all(behind) {
        return all_of(alloc, front);
    }
    match byte_after(behind, b':') {
        None => Err(TextFault::Bad(Cause::BadConstraint)),
        Some(name) => one_of(alloc, front, name),
    }
}

// Whether this text after a package's name relaxes all its dependencies.
fn is_all(text: &[u8]) -> bool
    ensures { result ≡ same_text text.now (codes ":*") }
{
    text == b":*".as_slice()
}

fn of_any(alloc: Global, name: &[u8]) -> Result<Relax, TextFault>
    ensures found { IfOk result (λ relax. (is_package_name name.now ≡ true)
        × (relax ≡ record { owner = RelaxOwner.Any; dep = Some name.now })) }
    ensures fault { IfErr result (Refuses
        (λ cause. (cause ≡ BadConstraint) × (is_package_name name.now ≡ false))) }
{
    let name = checked_name(alloc, name)?;
    Ok(Relax {
        owner: RelaxOwner::Any,
        dep: Some(name),
    })
}

fn all_of(alloc: Global, name: &[u8]) -> Result<Relax, TextFault>
    ensures found { IfOk result (λ relax. (is_package_name name.now ≡ true)
        × (relax ≡ record { owner = RelaxOwner.Package name.now; dep = None })) }
    ensures fault { IfErr result (Refuses
        (λ cause. (cause ≡ BadConstraint) × (is_package_name name.now ≡ false))) }
{
    let name = checked_name(alloc, name)?;
    Ok(Relax {
        owner: RelaxOwner::Package(name),
        dep: None,
    })
}

// The name of a package, as a text.
fn checked_name(alloc: Global, name: &[u8]) -> Result<Text, TextFault>
    ensures found { IfOk result (λ text. (is_package_name name.now ≡ true) × (text ≡ name.now)) }
    ensures fault { IfErr result (Refuses
        (λ cause. (cause ≡ BadConstraint) × (is_package_name name.now ≡ false))) }
{
    if !is_package_name(name) {
        return Err(TextFault::Bad(Cause::BadConstraint));
    }
    let name = package_text(alloc, name)?;
    Ok(name)
}

fn one_of(alloc: Global, front: &[u8], name: &[u8]) -> Result<Relax, TextFault>
    ensures found { IfOk result (λ relax. Owner front.now relax.owner × (is_package_name name.now ≡ true)
        × (relax.dep ≡ Some name.now)) }
    ensures fault { IfErr result (Refuses (λ cause. (cause ≡ BadConstraint)
        × ((owner : RelaxOwner) → Owner front.now owner → is_package_name name.now ≡ true → ⊥))) }
{
    if !is_package_name(name) {
        return Err(TextFault::Bad(Cause::BadConstraint));
    }
    let owner = owner(alloc, front)?;
    let name = package_text(alloc, name)?;
    Ok(Relax {
        owner,
        dep: Some(name),
    })
}

// The text before a colon, and the rest from the colon on.
fn owner_run(word: &[u8]) -> (&[u8], &[u8])
    ensures front { result.0.now ≡ run is_no_colon word.now }
    ensures rest { result.1.now ≡ behind is_no_colon word.now }
{
    word.split_at(owner_len(word))
}

fn owner_len(word: &[u8]) -> usize
    ensures count { result ≡ prefix_len is_no_colon word.now }
    ensures within { result ≤ length word.now }
{
    word.iter().take_while(|byte| **byte != b':').count()
}

fn owner(alloc: Global, text: &[u8]) -> Result<RelaxOwner, TextFault>
    ensures found { IfOk result (Owner text.now) }
    ensures fault { IfErr result (Refuses (IsBadConstraint Owner text.now)) }
{
    if is_star(text) {
        return Ok(RelaxOwner::Any);
    }
    if !is_package_name(text) {
        return release(alloc, text);
    }
    let name = package_text(alloc, text)?;
    Ok(RelaxOwner::Package(name))
}

fn is_star(text: &[u8]) -> bool
    ensures { result ≡ same_text text.now (codes "*") }
{
    text == b"*".as_slice()
}

// A version of a package.
fn release(alloc: Global, text: &[u8]) -> Result<RelaxOwner, TextFault>
    ensures found { IfOk result (λ owner. (name : List ℕ) × (version : Version) × Release text.now name version
        × (owner ≡ RelaxOwner.Release name version)) }
    ensures fault { IfErr result (Refuses (λ cause. (cause ≡ BadConstraint)
        × ((name : List ℕ) (version : Version) → Release text.now name version → ⊥))) }
{
    let Some((name, digits)) = cut_at_dash(text) else {
        return Err(TextFault::Bad(Cause::BadConstraint));
    };
    if !is_package_name(name) {
        return Err(TextFault::Bad(Cause::BadConstraint));
    }
    let version = project_version(alloc, digits)?;
    let name = package_text(alloc, name)?;
    Ok(RelaxOwner::Release(name, version))
}

fn project_version(alloc: Global, digits: &[u8]) -> Result<Version, TextFault>
    ensures found { IfOk result (λ v. (is_version v.parts ≡ true) × (digits.now ≡ version_text v.parts)) }
    ensures fault { IfErr result (Refuses (λ cause. (cause ≡ BadConstraint)
        × ((ps : List ℕ) → is_version ps ≡ true → digits.now ≢ version_text ps))) }
{
    match read_version(alloc, digits) {
        Ok(version) => Ok(version),
        Err(TextFault::NoMemory) => Err(TextFault::NoMemory),
        Err(TextFault::Bad(_)) => Err(TextFault::Bad(Cause::BadConstraint)),
    }
}

// The text before the last `-`, and the text after it.
fn cut_at_dash(text: &[u8]) -> Option<(&[u8], &[u8])>
    ensures some { IfSome result (λ p. (text.now ≡ p.0.now ++ 45 ∷ p.1.now)
        × (list_all is_no_dash p.1.now ≡ true)) }
    ensures none { IfNone result (list_all is_no_dash text.now ≡ true) }
{
    let (name, behind) = text.split_at(last_dash(text)?);
    let digits = byte_after(behind, b'-')?;
    Some((name, digits))
}

// The index of the last `-`.
fn last_dash(text: &[u8]) -> Option<usize>
    ensures some { IfSome result (λ at. (at < length text.now) × (slice_index text.now at ≡ 45)
        × (list_all is_no_dash (drop (at + 1) text.now) ≡ true)) }
    ensures none { IfNone result (list_all is_no_dash text.now ≡ true) }
{
    let mut found = None;
    for (at, byte) in text.iter().enumerate() {
        if *byte == b'-' {
            found = Some(at);
        }
    }
    found
}
