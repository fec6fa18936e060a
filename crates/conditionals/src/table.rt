// The numbers of paths of the conditions in a table.
ghost use Rattle.std.specs.Prelude.{◌≡◌, map, IfOk};
ghost use Rattle.conditionals.specs.Count.{numbers_of};
ghost use Rattle.conditionals.specs.Table.{numbers_at, numbers_of_and, numbers_of_row};

use crate::count::{PathCounts, numbers_of, swapped};
use plan_types::{Conditions, Env, NoMemory, Row};
use std::alloc::Global;

/// The numbers of paths of each condition in a table, from those of earlier rows.
pub fn count_all(alloc: Global, conds: &Conditions, env: &Env) -> Result<Vec<PathCounts>, NoMemory>
    ensures { IfOk result (λ all. all.items ≡ map (numbers_of env.now) conds.now) }
{
    let rows = conds.rows();
    let mut all = Vec::new(alloc);
    for row in rows {
        let numbers = numbers_of_row(&all, row, env);
        all.push(numbers)?;
    }
    Ok(all)
}

fn numbers_of_row(before: &[PathCounts], row: &Row, env: &Env) -> PathCounts
    ensures { result ≡ numbers_of_row env.now before.now row.now }
{
    match row {
        Row::Own(cond) => numbers_of(cond.get(), env),
        Row::Negated(i) => swapped(numbers_at(before, *i)),
        Row::Both(i, j) => numbers_of_and(numbers_at(before, *i), numbers_at(before, *j)),
    }
}

fn numbers_at(before: &[PathCounts], number: usize) -> PathCounts
    ensures { result ≡ numbers_at before.now number }
{
    match before.get(number) {
        Some(numbers) => *numbers,
        None => PathCounts { yes: 1, no: 0 },
    }
}

fn numbers_of_and(left: PathCounts, right: PathCounts) -> PathCounts
    ensures { result ≡ numbers_of_and left right }
{
    let both_no = left.yes.saturating_mul(right.no);
    PathCounts {
        yes: left.yes.saturating_mul(right.yes),
        no: left.no.saturating_add(both_no),
    }
}
