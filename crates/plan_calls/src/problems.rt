// Written problems. In the first one package 0 depends on 1 and 2, and the value 0 of 2 allows no value of 1.
use choice_problem::{Choice, Demand, Part, Qual, Var, Written, WrittenVar};
use plan_types::{List, NoMemory};
use std::alloc::Global;

pub fn package(number: u64) -> Var {
    Var {
        qual: Qual::Top,
        package: number,
        part: Part::Package,
    }
}

// A variable with its values in order.
fn listed(alloc: Global, number: u64, order: &[u64]) -> Result<WrittenVar, NoMemory> {
    Ok(WrittenVar {
        var: package(number),
        order: List::from_vec(order.to_vec(alloc)?),
        barred: List::new(alloc),
    })
}

// A demand whose condition is that these packages have the value 0.
fn demand(alloc: Global, owners: &[u64], number: u64, allowed: &[u64]) -> Result<Demand, NoMemory> {
    let mut when = List::new(alloc);
    for owner in owners {
        when.push(Choice {
            var: package(*owner),
            val: 0,
        })?;
    }
    Ok(Demand {
        when,
        target: package(number),
        allowed: List::from_vec(allowed.to_vec(alloc)?),
    })
}

/// The first problem with a fault added, or none if that breaks a law.
pub fn written_with(alloc: Global, fault: &str) -> Result<Option<Written>, NoMemory> {
    let (mut variables, mut roots, mut demands) = (
        List::new(alloc),
        List::new(alloc),
        List::new(alloc),
    );
    for number in 0..3_u64 {
        variables.push(listed(alloc, number, &[0, 1])?)?;
    }
    roots.push(demand(alloc, &[], 0, &[0])?)?;
    demands.push(demand(alloc, &[0], 1, &[0, 1])?)?;
    demands.push(demand(alloc, &[0], 2, &[0, 1])?)?;
    demands.push(demand(alloc, &[2], 1, &[])?)?;
    match fault {
        "a variable twice" => variables.push(listed(alloc, 0, &[0])?)?,
        "an order that is no permutation" => variables.push(listed(alloc, 8, &[1, 2])?)?,
        "a root of what isn't listed" => roots.push(demand(alloc, &[], 8, &[0])?)?,
        "a root with a condition" => roots.push(demand(alloc, &[0], 1, &[0])?)?,
        "a demand without one" => demands.push(demand(alloc, &[], 1, &[0])?)?,
        "a condition on two packages" => demands.push(demand(alloc, &[0, 1], 2, &[0])?)?,
        _ => {}
    }
    Ok(Written::new(variables, roots, demands))
}

/// Four packages, and a fifth that allows no value of the first.
pub fn five(alloc: Global) -> Result<Option<Written>, NoMemory> {
    let (mut variables, mut roots, mut demands) = (
        List::new(alloc),
        List::new(alloc),
        List::new(alloc),
    );
    for number in 0..4_u64 {
        variables.push(listed(alloc, number, &[0, 1, 2, 3])?)?;
        roots.push(demand(alloc, &[], number, &[0, 1, 2, 3])?)?;
    }
    variables.push(listed(alloc, 4, &[0])?)?;
    roots.push(demand(alloc, &[], 4, &[0])?)?;
    demands.push(demand(alloc, &[4], 0, &[])?)?;
    Ok(Written::new(variables, roots, demands))
}

/// So many variables without values.
pub fn small(alloc: Global, count: u64) -> Result<Option<Written>, NoMemory> {
    let (mut variables, mut roots) = (List::new(alloc), List::new(alloc));
    for number in 0..count {
        variables.push(listed(alloc, number, &[])?)?;
        roots.push(demand(alloc, &[], number, &[])?)?;
    }
    Ok(Written::new(variables, roots, List::new(alloc)))
}
