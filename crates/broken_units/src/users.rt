// Reversed edges: the users of a node are the nodes that need it.
ghost use Rattle.std.specs.Prelude.{◌≡◌, ◌<◌, ◌≤◌, ◌⊎◌, ◌↔◌, ℕ, [], length, Contains, IfOk, OnOk, slice_index_or, take};
ghost use Rattle.broken_units.specs.Leads.{IsUser, AreUsers, AddsUser};

use plan_types::{List, NoMemory};
use std::alloc::Global;

/// The users of each node. Edges to numbers that are no nodes are ignored.
pub fn users_of(alloc: Global, needs: &[List<usize>]) -> Result<Vec<List<usize>>, NoMemory>
    ensures { IfOk result (λ users. AreUsers needs.now users.items) }
{
    let mut users = no_users(alloc, needs.len())?;
    for user in 0..needs.len() {
        add_user(&mut users, user, needs[user].as_slice())?;
    }
    Ok(users)
}

fn no_users(alloc: Global, count: usize) -> Result<Vec<List<usize>>, NoMemory>
    ensures length { IfOk result (λ users. length users.items ≡ count) }
    ensures none { IfOk result (λ users. (u v : ℕ) → IsUser users.items u v → ⊥) }
{
    let mut users = Vec::new(alloc);
    for _ in 0..count {
        users.push(List::new(alloc))?;
    }
    Ok(users)
}

fn add_user(users: &mut Vec<List<usize>>, user: usize, nodes: &[usize]) -> Result<(), NoMemory>
    ensures length { OnOk result (length users.new.items ≡ length users.old.items) }
    ensures users { OnOk result (AddsUser user (Contains nodes.now) users.old.items users.new.items) }
{
    for node in nodes {
        add_to(users, *node, user)?;
    }
    Ok(())
}

// Adds a user to those of a node.
fn add_to(users: &mut Vec<List<usize>>, node: usize, user: usize) -> Result<(), NoMemory>
    ensures length { OnOk result (length users.new.items ≡ length users.old.items) }
    ensures users { OnOk result (AddsUser user (λ v. v ≡ node) users.old.items users.new.items) }
{
    if node >= users.len() {
        return Ok(());
    }
    users[node].push(user)
}
