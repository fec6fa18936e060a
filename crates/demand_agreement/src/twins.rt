// Choices of one instance under different qualifiers.
ghost use Rattle.std.specs.Prelude.{◌≡◌, ◌++◌, ◌∷◌, [], true, cond, filter, option_to_list, IfOk, OnOk};
ghost use Rattle.std.specs.List.{list_all};
ghost use Rattle.choice_problem.specs.Twins.{is_of_package, is_whole, under, are_twins, differ};
ghost use Rattle.demand_agreement.specs.Alike.{IsAlike, has_value};

use choice_problem::{Choice, Values, Var, is_same};
use plan_types::NoMemory;
use qualified_goals::Part;
use std::alloc::Global;

/// A variable under the qualifier of a choice.
pub(crate) fn under(c: Choice, v: Var) -> Var
    ensures { result ≡ under c v }
{
    Var {
        qual: c.var.qual,
        ..v
    }
}

fn is_whole(part: Part) -> bool
    ensures { result ≡ is_whole part }
{
    match part {
        Part::Package => true,
        Part::Flag(_) | Part::Tests | Part::Benches => false,
    }
}

fn are_twins(c: Choice, d: Choice) -> bool
    ensures { result ≡ are_twins c d }
{
    is_whole(c.var.part)
        && is_same(under(d, c.var), d.var)
        && !is_same(c.var, d.var)
        && c.val == d.val
}

pub(crate) fn differ(one: Option<u64>, other: Option<u64>) -> bool
    ensures { result ≡ differ one other }
{
    match (one, other) {
        (Some(m), Some(n)) => m != n,
        (Some(_), None) | (None, _) => false,
    }
}

/// Whether all instances of an instance's package have its value, or a variable has no value yet. `false` says nothing.
pub(crate) fn is_alike(trail: &Values<'_>, v: Var) -> bool
    ensures { result ≡ true → IsAlike trail.now v }
{
    let Some(value) = trail.value_of(v) else {
        return true;
    };
    if !is_whole(v.part) {
        return false;
    }
    let (kept, last) = trail.instances_of(v.package);
    all_have(kept, value) && may_have(last, v.package, value)
}

fn all_have(choices: &[Choice], value: u64) -> bool
    ensures { result ≡ list_all (has_value value) choices.now }
{
    choices.iter().all(|c| c.val == value)
}

// Whether a choice has the value, where it is of the package's instance.
fn may_have(last: Option<Choice>, package: u64, value: u64) -> bool
    ensures { result ≡ list_all (has_value value) (filter (is_of_package «package») (option_to_list last)) }
{
    match last {
        Some(c) if is_whole(c.var.part) && c.var.package == package => c.val == value,
        Some(_) | None => true,
    }
}

/// The twins of a choice among the choices of a trail.
pub(crate) fn twins_of(
    alloc: Global,
    trail: &Values<'_>,
    owner: Choice,
) -> Result<Vec<Choice>, NoMemory>
    ensures { IfOk result (λ found. found.items ≡ filter (are_twins owner) trail.now) }
{
    let (kept, last) = trail.instances_of(owner.var.package);
    let mut found = twins_among(alloc, kept, owner)?;
    if let Some(c) = last {
        push_twin(&mut found, owner, c)?;
    }
    Ok(found)
}

fn twins_among(alloc: Global, choices: &[Choice], owner: Choice) -> Result<Vec<Choice>, NoMemory>
    ensures { IfOk result (λ found. found.items ≡ filter (are_twins owner) choices.now) }
{
    let mut found = Vec::new(alloc);
    for c in choices {
        push_twin(&mut found, owner, *c)?;
    }
    Ok(found)
}

fn push_twin(found: &mut Vec<Choice>, owner: Choice, c: Choice) -> Result<(), NoMemory>
    ensures { OnOk result (found.new.items ≡ found.old.items ++ filter (are_twins owner) (c ∷ [])) }
{
    if are_twins(owner, c) {
        found.push(c)?;
    }
    Ok(())
}
