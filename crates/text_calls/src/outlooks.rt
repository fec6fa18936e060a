// The rows of a table of conditions. A row refers to another by its distance before the row itself. `chain` is the rows
// of so many branches, each on a flag of its own. The answer is the outlook of the last row: its number of paths, and
// whether it is never Yes.
use crate::conditions::{condition, environment};
use impossible_conditions::{Outlook, outlooks};
use plan_types::{Conditions, Guard, Row};
use std::alloc::Global;
use std::test::Fail;

pub const CASES: &str = "\
own flag(a) => 1\n\
own true => 1\n\
own false => 0 never\n\
own flag(a) && !flag(a) => 1 never\n\
own flag(a); not 1 => 1\n\
own flag(a); not 1; both 1 2 => 1 never\n\
own flag(a); not 1; both 1 1 => 1\n\
own flag(a); own flag(b); both 1 2 => 1\n\
own flag(a); not 1; both 1 2; own flag(b); both 2 1 => 1 never\n\
own flag(a); not 1; both 1 2; own flag(b); both 1 2 => 1 never\n\
own flag(a) || flag(b); not 1; both 1 2 => 2 never\n\
own flag(a) || flag(b); own !flag(a); both 1 2 => 2\n\
own flag(a) || flag(b); own !flag(a) && !flag(b); both 1 2 => 2 never\n\
own flag(a) && flag(b); own !flag(b); both 2 1 => 1 never\n\
own flag(a) && flag(b); not 1; both 2 1 => 2 never\n\
chain 200; own flag(f0); both 2 1 => 1 never\n\
chain 200; own flag(f0); both 1 2 => 1 never\n\
chain 200; own flag(f199); both 2 1 => 1 never\n\
chain 200; own flag(f100) || flag(f7); both 2 1 => 2 never\n\
chain 200; own flag(f100) || flag(g); both 2 1 => 2\n\
chain 200; own !flag(f100); both 2 1 => 1\n\
chain 200; own flag(g); both 2 1 => 1\n\
chain 200; own flag(f7); both 2 1; own flag(g); both 2 1 => 1 never\n";

fn push(alloc: Global, conds: &mut Conditions, row: Row) -> Result<(), Fail> {
    conds.push(alloc, row)?;
    Ok(())
}

fn push_own(alloc: Global, conds: &mut Conditions, text: &str) -> Result<(), Fail> {
    let cond = condition(alloc, text)?;
    let guard = Guard::new(alloc, cond)?;
    push(alloc, conds, Row::Own(guard))
}

// The number of the row at this distance before the next one.
fn before(conds: &Conditions, text: &str) -> Result<usize, Fail> {
    let back = text.parse::<usize>()?;
    Ok(conds.rows().len().checked_sub(back).ok_or("no such row")?)
}

fn push_chain(alloc: Global, conds: &mut Conditions, count: usize) -> Result<(), Fail> {
    for at in 0..count {
        push_own(alloc, conds, format!(in alloc; "flag(f{at})")?.as_str())?;
        push_row(alloc, conds, "not 1")?;
        if at > 0 {
            push_row(alloc, conds, "both 3 1")?;
        }
    }
    Ok(())
}

fn push_row(alloc: Global, conds: &mut Conditions, text: &str) -> Result<(), Fail> {
    let (word, rest) = text.split_once(' ').ok_or("no row")?;
    match word {
        "own" => push_own(alloc, conds, rest),
        "not" => {
            let inner = before(conds, rest)?;
            push(alloc, conds, Row::Negated(inner))
        }
        _ => {
            let (front, last) = rest.split_once(' ').ok_or("no two rows")?;
            let (front, last) = (before(conds, front)?, before(conds, last)?);
            push(alloc, conds, Row::Both(front, last))
        }
    }
}

fn push_part(alloc: Global, conds: &mut Conditions, text: &str) -> Result<(), Fail> {
    match text.strip_prefix("chain ") {
        Some(count) => push_chain(alloc, conds, count.parse::<usize>()?),
        None => push_row(alloc, conds, text),
    }
}

fn table(alloc: Global, case: &str) -> Result<Conditions, Fail> {
    let mut conds = Conditions::new(alloc);
    for text in case.split("; ") {
        push_part(alloc, &mut conds, text)?;
    }
    Ok(conds)
}

fn shown(alloc: Global, last: &Outlook) -> Result<String, Fail> {
    let never = if last.known_impossible { " never" } else { "" };
    Ok(format!(in alloc; "{}{never}", last.number)?)
}

pub fn answer(alloc: Global, case: &str) -> Result<String, Fail> {
    let conds = table(alloc, case)?;
    let env = environment(alloc)?;
    let all = outlooks(alloc, &conds, &env)?;
    let last = all.last().ok_or("no row")?;
    shown(alloc, last)
}
