// A component's dependencies and its condition of being buildable, gathered part by part.

ghost use Rattle.std.specs.Prelude.{◌≡◌, List, [], ◌∷◌, ◌++◌, map, take, length, slice_get, Some, IfOk, OnOk};
ghost use Rattle.plan_types.specs.Guarded.{AreTabled, in_groups, under};
ghost use Rattle.plan_types.specs.declared.condition.Cond.{Cond};
ghost use Rattle.section_syntax.specs.Branch.{all_of};
ghost use Rattle.section_syntax.specs.Chained.{branches_behind};
ghost use Rattle.section_syntax.specs.declared.branch.Branch.{Branch};
ghost use Rattle.section_syntax.specs.declared.part.File.{File};
ghost use Rattle.package_declarations.specs.Components.{unbuildable_said};
ghost use Rattle.package_declarations.specs.Declarations.{meant};
ghost use Rattle.package_declarations.specs.DeclaredNames.{RepresentsNames};
ghost use Rattle.package_declarations.specs.Gathering.{GroupsTabled, RepresentsState, bars, deps_in, joined_some, place_in};
ghost use Rattle.package_declarations.specs.Levels.{Grown, IsNumbered};
ghost use Rattle.stanza_imports.specs.Bodies.{placed_part};
ghost use Rattle.stanza_imports.specs.Parts.{deps_said};

use crate::branches::{Level, added, conjunction, enter, leave, number_at};
use crate::declarations::Declared;
use plan_types::{
    BuildInfo, Cond, Conditions, Dep, DepGroup, Guard, List, NoMemory, Row, Shared, drop_fields,
};
use section_syntax::Said;
use stanza_imports::Placed;
use std::alloc::Global;

/// The state after the parts so far.
pub struct Gathered {
    /// The first one is `true`.
    conds: Conditions,
    /// The open branches and the last closed ones, the outermost first.
    levels: List<Level>,
    groups: Groups,
    /// The number of the condition that no `buildable: False` so far counts; none if there was none.
    barred: Option<usize>,
}

impl Drop for Gathered {
    fn drop(self) {
        drop_fields!(self; conds, levels, groups, barred);
    }
}

/// Dependencies grouped by condition: neighbours under the same condition are one group.
#[derive(Drop)]
pub struct Groups {
    closed: List<DepGroup>,
    /// The group of the last dependency.
    current: Option<DepGroup>,
}

impl Gathered {
    /// The state before the first part.
    pub fn new(alloc: Global) -> Result<Gathered, NoMemory>
        ensures stands { IfOk result (λ gathered. RepresentsState gathered [] []) }
        ensures deps { IfOk result (λ gathered. deps_in gathered.groups ≡ []) }
    {
        let mut conds = Conditions::new(alloc);
        conds.push(alloc, Row::Own(Guard::new(alloc, Cond::Always)?))?;
        let groups = Groups {
            closed: List::new(alloc),
            current: None,
        };
        Ok(Gathered {
            conds,
            levels: List::new(alloc),
            groups,
            barred: None,
        })
    }

    /// The state after one more part.
    pub fn with(
        self,
        alloc: Global,
        declared: &Declared,
        placed: &Placed,
    ) -> Result<Gathered, NoMemory>
        ensures stands { IfOk result (λ after. (opened : List Branch) (barred : List Cond)
            → RepresentsState self opened barred
            → RepresentsState after (branches_behind opened (placed_part placed.now))
            (barred ++ bars (placed_part placed.now).said (place_in opened (placed_part placed.now)))) }
        ensures deps { IfOk result (λ after. (file : File) → RepresentsNames declared.now file
            → (opened : List Branch) (barred : List Cond)
            → RepresentsState self opened barred → deps_in after.groups ≡ deps_in self.groups
            ++ map (under (place_in opened (placed_part placed.now)))
            (map (meant file) (deps_said (placed_part placed.now).said))) }
    {
        let Gathered {
            mut conds,
            mut levels,
            groups,
            barred,
        } = self;
        let said = &placed.part.said;
        let chain = leave(&mut levels, placed.branches.len());
        let here = number_at(levels.as_slice());
        let deps = meant(alloc, declared, asked(said))?;
        let groups = groups.with(alloc, &conds, here, deps)?;
        let barred = with_bar(alloc, &mut conds, barred, here, said)?;
        enter(alloc, &mut conds, &mut levels, said, chain)?;
        Ok(Gathered {
            conds,
            levels,
            groups,
            barred,
        })
    }

    /// The condition of being buildable, and all dependencies.
    pub fn into_build(self, alloc: Global) -> Result<BuildInfo, NoMemory>
        requires { (opened : List Branch) × (barred : List Cond) × RepresentsState self opened barred }
        ensures buildable { IfOk result (λ build. (opened : List Branch) (barred : List Cond)
            → RepresentsState self opened barred
            → build.buildable ≡ all_of barred) }
        ensures deps { IfOk result (λ build. build.deps ≡ deps_in self.groups) }
    {
        let Gathered {
            conds,
            levels: _levels,
            groups,
            barred,
        } = self;
        let groups = groups.into_list()?;
        let free = match barred {
            Some(number) => number,
            None => 0,
        };
        let buildable = conds.guard(alloc, free)?;
        Ok(BuildInfo::new(conds, buildable, free, groups))
    }
}

impl Groups {
    // Appends dependencies under the condition of this number.
    fn with(
        self,
        alloc: Global,
        conds: &Conditions,
        number: usize,
        mut deps: List<Shared<Dep>>,
    ) -> Result<Groups, NoMemory>
        ensures tabled { IfOk result (λ after. (place : Cond) → slice_get conds.now number ≡ Some place
            → GroupsTabled conds.now self
            → GroupsTabled conds.now after) }
        ensures deps { IfOk result (λ after. (place : Cond) → slice_get conds.now number ≡ Some place
            → GroupsTabled conds.now self
            → deps_in after ≡ deps_in self ++ map (under place) deps) }
    {
        if deps.is_empty() {
            return Ok(self);
        }
        let Groups {
            mut closed,
            current,
        } = self;
        if let Some(mut group) = current {
            if group.number == number {
                group.deps.append(&mut deps)?;
                return Ok(Groups {
                    closed,
                    current: Some(group),
                });
            }
            closed.push(group)?;
        }
        let when = conds.guard(alloc, number)?;
        let current = Some(DepGroup { when, number, deps });
        Ok(Groups { closed, current })
    }

    // All groups in order.
    fn into_list(self) -> Result<List<DepGroup>, NoMemory>
        ensures tabled { IfOk result (λ groups. (conds : List Cond) → GroupsTabled conds self
            → AreTabled conds groups) }
        ensures deps { IfOk result (λ groups. in_groups groups ≡ deps_in self) }
    {
        let mut groups = self.closed;
        if let Some(group) = self.current {
            groups.push(group)?;
        }
        Ok(groups)
    }
}

// The number of `barred && !here` if the part is `buildable: False`, else `barred`.
fn with_bar(
    alloc: Global,
    conds: &mut Conditions,
    barred: Option<usize>,
    here: usize,
    said: &Said,
) -> Result<Option<usize>, NoMemory>
    ensures grown { OnOk result (Grown conds.old conds.new) }
    ensures free { IfOk result (λ after. (before : List Cond) (place : Cond)
        → IsNumbered conds.old barred (joined_some before)
        → slice_get conds.old here ≡ Some place
        → IsNumbered conds.new after (joined_some (before ++ bars said.now place))) }
{
    if !is_unbuildable(said) {
        return Ok(barred);
    }
    let bar = added(alloc, conds, Row::Negated(here))?;
    let free = conjunction(alloc, conds, barred, bar)?;
    Ok(Some(free))
}

fn is_unbuildable(said: &Said) -> bool
    ensures { result ≡ unbuildable_said said.now }
{
    match said {
        Said::Buildable(Some(value)) => !*value,
        _ => false,
    }
}

// The dependencies of a part.
fn asked(said: &Said) -> &[Dep]
    ensures { result.now ≡ deps_said said.now }
{
    match said {
        Said::Depends(Ok(deps)) => deps.as_slice(),
        _ => &[],
    }
}

// The dependencies with their meanings resolved.
fn meant(alloc: Global, declared: &Declared, found: &[Dep]) -> Result<List<Shared<Dep>>, NoMemory>
    ensures { IfOk result (λ deps. (file : File) → RepresentsNames declared.now file
        → deps ≡ map (meant file) found.now) }
{
    let mut deps = List::with_room(alloc, found.len())?;
    for dep in found {
        let dep = declared.meant(alloc, dep)?;
        let shared = Shared::new(alloc, dep)?;
        deps.push(shared)?;
    }
    Ok(deps)
}
