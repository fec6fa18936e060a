// Sets of variables, as conflicts have them.
ghost use Rattle.std.specs.Prelude.{◌≡◌, ◌++◌, [], IfOk, OnOk, IsTrue, if◌then◌else◌};
ghost use Rattle.qualified_goals.specs.Variable.{is_before};
ghost use Rattle.choice_problem.specs.ConflictSet.{is_rising, has, with_var, without, set_of, union, front_of, behind};

use crate::rising::{place_of, stands_at};
use crate::{Var, is_before, is_same};
use plan_types::{List, NoMemory};
use std::alloc::Global;
use std::marker::Model;

// A set of more variables is merged with another, front by front.
const FEW: usize = 8;

/// A set of variables, seen as the list of them in goal order, each once.
#[derive(Debug, Drop, PartialEq, Eq)]
pub struct ConflictSet {
    vars: List<Var>,
}

impl Model for ConflictSet {
    ghost use Rattle.std.specs.Prelude.{List, IsTrue};
    ghost use Rattle.qualified_goals.specs.declared.variable.Var.{Var};
    ghost use Rattle.choice_problem.specs.ConflictSet.{is_rising};

    ghost Value = { List Var };

    ghost view = { λ s. s.vars };

    ghost invariant = { λ s. IsTrue (is_rising s.vars) };

    ghost inverse = { λ vars. record { vars = vars } };
}

impl ConflictSet {
    /// The empty set.
    pub fn new(alloc: Global) -> ConflictSet
        ensures { result ≡ [] }
    {
        ConflictSet {
            vars: List::new(alloc),
        }
    }

    /// The set of some variables.
    pub fn of(alloc: Global, vars: &[Var]) -> Result<ConflictSet, NoMemory>
        ensures { IfOk result (λ set. set ≡ set_of vars.now) }
    {
        Ok(ConflictSet {
            vars: List::from_vec(rising(alloc, vars)?),
        })
    }

    /// The variables, in goal order, each once.
    pub fn vars(&self) -> &[Var]
        ensures set { result.now ≡ self.now }
        ensures rising { IsTrue (is_rising result.now) }
    {
        self.vars.as_slice()
    }

    /// Whether the variable is in the set.
    pub fn has(&self, v: Var) -> bool
        ensures { result ≡ has self.now v }
    {
        let vars = self.vars.as_slice();
        stands_at(vars, place_of(vars, v), v)
    }

    /// The union of two sets. The few variables of a small set are added to a copy of the other.
    pub fn union(&self, alloc: Global, other: &ConflictSet) -> Result<ConflictSet, NoMemory>
        ensures { IfOk result (λ both. both ≡ union self.now other.now) }
    {
        let (few, many) = by_size(self.vars.as_slice(), other.vars.as_slice());
        let both = if few.len() > FEW {
            merged(alloc, few, many)?
        } else {
            with_few(alloc, few, many)?
        };
        Ok(ConflictSet {
            vars: List::from_vec(both),
        })
    }

    /// The union of two sets. The few variables of a small set are added to the other.
    pub fn joined(self, alloc: Global, other: ConflictSet) -> Result<ConflictSet, NoMemory>
        ensures { IfOk result (λ both. both ≡ union self other) }
    {
        let (few, many) = larger_last(self.vars, other.vars);
        let both = if few.len() > FEW {
            merged(alloc, few.as_slice(), many.as_slice())?
        } else {
            with_added(few.as_slice(), many)?
        };
        Ok(ConflictSet {
            vars: List::from_vec(both),
        })
    }

    /// A copy of the set.
    pub fn copy(&self, alloc: Global) -> Result<ConflictSet, NoMemory>
        ensures { IfOk result (λ copied. copied ≡ self.now) }
    {
        Ok(ConflictSet {
            vars: List::from_vec(self.vars.as_slice().to_vec(alloc)?),
        })
    }

    /// The set without one variable.
    pub fn without(&self, alloc: Global, v: Var) -> Result<ConflictSet, NoMemory>
        ensures { IfOk result (λ others. others ≡ without v self.now) }
    {
        let mut vars = self.vars.as_slice().to_vec(alloc)?;
        take_out(&mut vars, v);
        Ok(ConflictSet {
            vars: List::from_vec(vars),
        })
    }
}

fn add(vars: &mut Vec<Var>, v: Var) -> Result<(), NoMemory>
    requires { IsTrue (is_rising vars.old.items) }
    ensures { OnOk result (vars.new.items ≡ with_var v vars.old.items) }
{
    let place = place_of(vars.as_slice(), v);
    if stands_at(vars.as_slice(), place, v) {
        return Ok(());
    }
    vars.insert(place, v)?;
    Ok(())
}

fn take_out(vars: &mut Vec<Var>, v: Var)
    requires { IsTrue (is_rising vars.old.items) }
    ensures set { vars.new.items ≡ without v vars.old.items }
    ensures rising { IsTrue (is_rising vars.new.items) }
{
    let place = place_of(vars.as_slice(), v);
    if stands_at(vars.as_slice(), place, v) {
        vars.remove(place);
    }
}

// The set of some variables.
fn rising(alloc: Global, vars: &[Var]) -> Result<Vec<Var>, NoMemory>
    ensures set { IfOk result (λ set. set.items ≡ set_of vars.now) }
    ensures rising { IfOk result (λ set. IsTrue (is_rising set.items)) }
{
    let mut set = Vec::new(alloc);
    add_all(&mut set, vars)?;
    Ok(set)
}

fn add_all(set: &mut Vec<Var>, vars: &[Var]) -> Result<(), NoMemory>
    requires { IsTrue (is_rising set.old.items) }
    ensures set { OnOk result (set.new.items ≡ set_of (vars.now ++ set.old.items)) }
    ensures rising { OnOk result (IsTrue (is_rising set.new.items)) }
{
    let mut place = vars.len();
    while place > 0 {
        place -= 1;
        add(set, vars[place])?;
    }
    Ok(())
}

// Two rising lists, the shorter one first.
fn by_size<'a>(left: &'a [Var], right: &'a [Var]) -> (&'a [Var], &'a [Var])
    requires left { IsTrue (is_rising left.now) }
    requires right { IsTrue (is_rising right.now) }
    ensures both { union result.0.now result.1.now ≡ union left.now right.now }
    ensures few { IsTrue (is_rising result.0.now) }
    ensures many { IsTrue (is_rising result.1.now) }
{
    if left.len() > right.len() {
        (right, left)
    } else {
        (left, right)
    }
}

// The same, of lists that are given away.
fn larger_last(one: List<Var>, other: List<Var>) -> (List<Var>, List<Var>)
    requires one { IsTrue (is_rising one) }
    requires other { IsTrue (is_rising other) }
    ensures both { union result.0 result.1 ≡ union one other }
    ensures few { IsTrue (is_rising result.0) }
    ensures many { IsTrue (is_rising result.1) }
{
    if one.len() > other.len() {
        (other, one)
    } else {
        (one, other)
    }
}

// The union of two rising lists, in the second one's memory.
fn with_added(few: &[Var], many: List<Var>) -> Result<Vec<Var>, NoMemory>
    requires { IsTrue (is_rising many) }
    ensures both { IfOk result (λ both. both.items ≡ union few.now many) }
    ensures rising { IfOk result (λ both. IsTrue (is_rising both.items)) }
{
    let mut all = many.into_vec();
    add_all(&mut all, few)?;
    Ok(all)
}

// The union of two rising lists. Each of the few costs a search, and a move of what is behind it.
fn with_few(alloc: Global, few: &[Var], many: &[Var]) -> Result<Vec<Var>, NoMemory>
    requires { IsTrue (is_rising many.now) }
    ensures both { IfOk result (λ both. both.items ≡ union few.now many.now) }
    ensures rising { IfOk result (λ both. IsTrue (is_rising both.items)) }
{
    let mut both = Vec::with_capacity(alloc, few.len().saturating_add(many.len()))?;
    both.extend_from_slice(many)?;
    add_all(&mut both, few)?;
    Ok(both)
}

// The union of two rising lists, merged by the lesser front.
fn merged(alloc: Global, left: &[Var], right: &[Var]) -> Result<Vec<Var>, NoMemory>
    requires left { IsTrue (is_rising left.now) }
    requires right { IsTrue (is_rising right.now) }
    ensures both { IfOk result (λ both. both.items ≡ union left.now right.now) }
    ensures rising { IfOk result (λ both. IsTrue (is_rising both.items)) }
{
    let mut left = left;
    let mut right = right;
    let mut both = Vec::new(alloc);
    while let Some(v) = front_of(left, right) {
        both.push(v)?;
        left = behind(left, v);
        right = behind(right, v);
    }
    Ok(both)
}

fn front_of(left: &[Var], right: &[Var]) -> Option<Var>
    ensures { result ≡ front_of left.now right.now }
{
    match (left, right) {
        ([v, ..], [w, ..]) => Some(lesser(*v, *w)),
        ([v, ..], []) => Some(*v),
        ([], [w, ..]) => Some(*w),
        ([], []) => None,
    }
}

fn lesser(v: Var, w: Var) -> Var
    ensures { result ≡ (if is_before w v then w else v) }
{
    if is_before(w, v) { w } else { v }
}

// The list without its first variable, where that is `v`.
fn behind(vars: &[Var], v: Var) -> &[Var]
    ensures { result.now ≡ behind v vars.now }
{
    match vars {
        [w, rest @ ..] => { if is_same(*w, v) { rest } else { vars } }
        [] => vars,
    }
}
