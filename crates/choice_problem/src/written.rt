// Problems as lists.
ghost use Rattle.std.specs.Prelude.{◌≡◌, ◌&&◌, [], IfOk, IsTrue, MatchOption, filter, length, nat_lt};
ghost use Rattle.std.specs.List.{list_all};
ghost use Rattle.choice_problem.specs.Written.{is_among, is_listed, order_of, barred_of, begins_with, problem_of};
ghost use Rattle.choice_problem.specs.Written.{has_each_below, is_once, is_order, are_listed_once, is_beside, is_empty};
ghost use Rattle.choice_problem.specs.Written.{AreLawful, is_condition, are_lawful};

use crate::{Choice, Choices, Demand, Trail, Var, is_same};
use plan_types::{List, NoMemory};
use std::alloc::Global;

/// A variable with all its values, the best first, and its barred values.
#[derive(Debug, Drop)]
pub struct WrittenVar {
    pub var: Var,
    pub order: List<u64>,
    pub barred: List<u64>,
}

fn listed(variables: &[WrittenVar], v: Var) -> bool
    ensures { result ≡ is_listed variables.now v }
{
    variables.iter().any(|w| is_same(w.var, v))
}

fn written_var(variables: &[WrittenVar], v: Var) -> Option<&WrittenVar>
    ensures { MatchOption result ((order_of variables.now v ≡ []) × (barred_of variables.now v ≡ []))
        (λ w. (order_of variables.now v ≡ w.now.order) × (barred_of variables.now v ≡ w.now.barred)) }
{
    for w in variables {
        if is_same(w.var, v) {
            return Some(w);
        }
    }
    None
}

fn order_in(variables: &[WrittenVar], v: Var) -> &[u64]
    ensures { result.now ≡ order_of variables.now v }
{
    match written_var(variables, v) {
        Some(w) => w.order.as_slice(),
        None => &[],
    }
}

fn barred_in(variables: &[WrittenVar], v: Var) -> &[u64]
    ensures { result.now ≡ barred_of variables.now v }
{
    match written_var(variables, v) {
        Some(w) => w.barred.as_slice(),
        None => &[],
    }
}

fn starts(demand: &Demand, owner: Choice) -> bool
    ensures { result ≡ begins_with owner demand.now.when }
{
    match demand.when.as_slice() {
        [c, ..] => is_same(c.var, owner.var) && c.val == owner.val,
        [] => false,
    }
}

fn all_below(values: &[u64], len: u64) -> bool
    ensures { result ≡ list_all (λ n. nat_lt n len) values.now }
{
    values.iter().all(|n| *n < len)
}

fn each_below(values: &[u64]) -> bool
    ensures { result ≡ has_each_below (length values.now) values.now }
{
    let mut n = values.len();
    while n > 0 {
        n -= 1;
        if !values.contains(&(n as u64)) {
            return false;
        }
    }
    true
}

fn once(values: &[u64]) -> bool
    ensures { result ≡ is_once values.now }
{
    let mut rest = values;
    while let [n, tail @ ..] = rest {
        if tail.contains(n) {
            return false;
        }
        rest = tail;
    }
    true
}

fn ordered(values: &[u64]) -> bool
    ensures { result ≡ is_order values.now }
{
    let len = values.len() as u64;
    if !all_below(values, len) {
        return false;
    }
    if !each_below(values) {
        return false;
    }
    once(values)
}

fn listed_once(variables: &[WrittenVar]) -> bool
    ensures { result ≡ are_listed_once variables.now }
{
    let mut rest = variables;
    while let [w, tail @ ..] = rest {
        if listed(tail, w.var) {
            return false;
        }
        rest = tail;
    }
    true
}

fn beside(owner: Choice, c: Choice) -> bool
    ensures { result ≡ is_beside owner c }
{
    c.var.qual.cmp(&owner.var.qual).is_eq() && c.var.package == owner.var.package
}

fn all_beside(owner: Choice, others: &[Choice]) -> bool
    ensures { result ≡ list_all (is_beside owner) others.now }
{
    others.iter().all(|c| beside(owner, *c))
}

fn conditioned(demand: &Demand) -> bool
    ensures { result ≡ is_condition demand.now.when }
{
    match demand.when.as_slice() {
        [owner, others @ ..] => all_beside(*owner, others),
        [] => false,
    }
}

fn root_lawful(variables: &[WrittenVar], demand: &Demand) -> bool
    ensures { result ≡ (is_empty demand.now.when && is_listed variables.now demand.now.target) }
{
    demand.when.is_empty() && listed(variables, demand.target)
}

fn demand_lawful(variables: &[WrittenVar], demand: &Demand) -> bool
    ensures { result ≡ (is_condition demand.now.when && is_listed variables.now demand.now.target) }
{
    conditioned(demand) && listed(variables, demand.target)
}

fn orders_lawful(variables: &[WrittenVar]) -> bool
    ensures { result ≡ list_all (λ w. is_order w.order) variables.now }
{
    variables.iter().all(|w| ordered(w.order.as_slice()))
}

fn roots_lawful(variables: &[WrittenVar], roots: &[Demand]) -> bool
    ensures { result ≡ list_all (λ d. is_empty d.when && is_listed variables.now d.target) roots.now }
{
    roots.iter().all(|d| root_lawful(variables, d))
}

fn demands_lawful(variables: &[WrittenVar], demands: &[Demand]) -> bool
    ensures { result ≡ list_all (λ d. is_condition d.when && is_listed variables.now d.target) demands.now }
{
    demands.iter().all(|d| demand_lawful(variables, d))
}

fn lawful(variables: &[WrittenVar], roots: &[Demand], demands: &[Demand]) -> bool
    ensures { result ≡ are_lawful variables.now roots.now demands.now }
{
    if !listed_once(variables) {
        return false;
    }
    if !orders_lawful(variables) {
        return false;
    }
    if !roots_lawful(variables, roots) {
        return false;
    }
    demands_lawful(variables, demands)
}

fn copied(alloc: Global, values: &[u64]) -> Result<List<u64>, NoMemory>
    ensures { IfOk result (λ copy. copy ≡ values.now) }
{
    Ok(List::from_vec(Vec::from_slice(alloc, values)?))
}

impl Demand {
    pub fn copy(&self, alloc: Global) -> Result<Demand, NoMemory>
        ensures { IfOk result (λ copy. copy ≡ self.now) }
    {
        let when = List::from_vec(Vec::from_slice(alloc, self.when.as_slice())?);
        let allowed = copied(alloc, self.allowed.as_slice())?;
        Ok(Demand {
            when,
            target: self.target,
            allowed,
        })
    }
}

fn copied_demands(alloc: Global, demands: &[Demand]) -> Result<List<Demand>, NoMemory>
    ensures { IfOk result (λ copy. copy ≡ demands.now) }
{
    let mut copy = List::new(alloc);
    for demand in demands {
        copy.push(demand.copy(alloc)?)?;
    }
    Ok(copy)
}

fn owned(alloc: Global, demands: &[Demand], owner: Choice) -> Result<List<Demand>, NoMemory>
    ensures { IfOk result (λ found. found ≡ filter (λ d. begins_with owner d.when) demands.now) }
{
    let mut found = List::new(alloc);
    for demand in demands {
        if starts(demand, owner) {
            found.push(demand.copy(alloc)?)?;
        }
    }
    Ok(found)
}

/// A problem as lists. The known variables are those that are listed.
#[derive(Debug, Drop)]
pub struct Written {
    variables: List<WrittenVar>,
    roots: List<Demand>,
    demands: List<Demand>,
    ghost lawful: { IsTrue (are_lawful variables roots demands) },
}

impl Written {
    /// The problem of these lists. `None` where a variable is listed twice, an order isn't a permutation
    /// of the numbers below its length, or a root or a demand breaks a law.
    pub fn new(
        variables: List<WrittenVar>,
        roots: List<Demand>,
        demands: List<Demand>,
    ) -> Option<Written>
        ensures { MatchOption result (AreLawful variables roots demands → ⊥)
            (λ written. AreLawful variables roots demands
            × (⟦<Written as Choices>⟧.problem written ≡ problem_of variables roots demands)) }
    {
        if lawful(variables.as_slice(), roots.as_slice(), demands.as_slice()) {
            Some(Written {
                variables,
                roots,
                demands,
            })
        } else {
            None
        }
    }
}

impl Choices for Written {
    ghost use Rattle.choice_problem.specs.Written.{problem_of};
    ghost use Rattle.choice_problem.specs.WrittenLaws.{written_lawful};

    ghost problem = { λ w. problem_of w.variables w.roots w.demands };

    ghost lawful = { λ w. written_lawful w.variables w.roots w.demands w.lawful };

    fn known(&self, v: Var) -> bool {
        listed(self.variables.as_slice(), v)
    }

    fn domain(&self, v: Var) -> u64 {
        order_in(self.variables.as_slice(), v).len() as u64
    }

    fn roots(&self, alloc: Global) -> Result<List<Demand>, NoMemory> {
        copied_demands(alloc, self.roots.as_slice())
    }

    fn order(&self, alloc: Global, v: Var, _trail: &Trail) -> Result<List<u64>, NoMemory> {
        copied(alloc, order_in(self.variables.as_slice(), v))
    }

    fn barred(&self, c: Choice) -> bool {
        barred_in(self.variables.as_slice(), c.var).contains(&c.val)
    }

    fn demands(&self, alloc: Global, owner: Choice) -> Result<List<Demand>, NoMemory> {
        owned(alloc, self.demands.as_slice(), owner)
    }
}
