// The values of a variable in the order in which they are tried.
ghost use Rattle.std.specs.Prelude.{◌≡◌, ◌++◌, ◌∷◌, [], cond, map, IfOk, OnOk, Some, slice_index_or};
ghost use Rattle.choice_problem.specs.Assignment.{is_one_of};
ghost use Rattle.cabal_problem.specs.Values.{each_once, elsewhere, better_first, others, package_var, values_elsewhere, with_others};

use choice_problem::{Choice, is_same};
use plan_types::{List, NoMemory};
use qualified_goals::{Part, Qual, Var};
use std::alloc::Global;

/// The instances of a package, the best first.
pub(crate) fn order_at(orders: &[List<u64>], p: u64) -> &[u64]
    ensures { result.now ≡ slice_index_or orders.now p [] }
{
    match orders.get(p as usize) {
        Some(order) => order.as_slice(),
        None => &[],
    }
}

fn copied(alloc: Global, values: &[u64]) -> Result<List<u64>, NoMemory>
    ensures { IfOk result (λ copy. copy ≡ values.now) }
{
    Ok(List::from_vec(Vec::from_slice(alloc, values)?))
}

/// The values chosen for other variables, each once.
pub(crate) fn values_elsewhere(
    alloc: Global,
    choices: &[Choice],
    v: Var,
) -> Result<Vec<u64>, NoMemory>
    ensures { IfOk result (λ found. found.items ≡ values_elsewhere v choices.now) }
{
    let all = all_elsewhere(alloc, choices, v)?;
    let found = each_once(alloc, all.as_slice())?;
    Ok(found)
}

fn all_elsewhere(alloc: Global, choices: &[Choice], v: Var) -> Result<Vec<u64>, NoMemory>
    ensures { IfOk result (λ found. found.items ≡ map (λ c. c.val) (elsewhere v choices.now)) }
{
    let mut found = Vec::new(alloc);
    for c in choices {
        push_elsewhere(&mut found, *c, v)?;
    }
    Ok(found)
}

fn push_elsewhere(found: &mut Vec<u64>, c: Choice, v: Var) -> Result<(), NoMemory>
    ensures { OnOk result (found.new.items ≡ found.old.items ++ map (λ c. c.val) (elsewhere v (c ∷ []))) }
{
    if !is_same(c.var, v) {
        found.push(c.val)?;
    }
    Ok(())
}

fn each_once(alloc: Global, values: &[u64]) -> Result<Vec<u64>, NoMemory>
    ensures { IfOk result (λ found. found.items ≡ each_once values.now) }
{
    let mut found = Vec::new(alloc);
    for n in values {
        push_new(&mut found, *n)?;
    }
    Ok(found)
}

fn push_new(found: &mut Vec<u64>, n: u64) -> Result<(), NoMemory>
    ensures { OnOk result (found.new.items ≡ found.old.items ++ cond (is_one_of (Some n) found.old.items) [] (n ∷ [])) }
{
    if !found.contains(&n) {
        found.push(n)?;
    }
    Ok(())
}

/// Some values, and then the other values of an order.
pub(crate) fn with_others(
    alloc: Global,
    first: &[u64],
    order: &[u64],
) -> Result<List<u64>, NoMemory>
    ensures { IfOk result (λ all. all ≡ with_others first.now order.now) }
{
    let mut all = Vec::from_slice(alloc, first)?;
    for n in order {
        push_other(&mut all, first, *n)?;
    }
    Ok(List::from_vec(all))
}

fn push_other(all: &mut Vec<u64>, first: &[u64], n: u64) -> Result<(), NoMemory>
    ensures { OnOk result (all.new.items ≡ all.old.items ++ others first.now (n ∷ [])) }
{
    if !first.contains(&n) {
        all.push(n)?;
    }
    Ok(())
}

/// Both values of a flag or stanza, the given one first.
pub(crate) fn better_first(alloc: Global, on: bool) -> Result<List<u64>, NoMemory>
    ensures { IfOk result (λ values. values ≡ better_first on) }
{
    if on {
        return copied(alloc, &[1, 0]);
    }
    copied(alloc, &[0, 1])
}

/// The variable of a package itself.
pub fn package_var(qual: Qual, package: u64) -> Var
    ensures { result ≡ package_var qual «package» }
{
    Var {
        qual,
        package,
        part: Part::Package,
    }
}
