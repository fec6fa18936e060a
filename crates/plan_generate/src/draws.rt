// Pseudo-random draws, each from the previous one, and the packages that they pick.
ghost use Rattle.std.specs.Prelude.{◌≡◌, ◌<◌, ◌^◌, IfOk};
ghost use Rattle.plan_generate.specs.Draws.{after_draws, draws_each, drawn, needed, needs_after};

use plan_types::{List, NoMemory};
use std::alloc::Global;

/// The last draw; at first the seed.
#[derive(Drop)]
pub struct Draws {
    last: u64,
    ghost small: { last < 2 ^ 31 },
}

impl Draws {
    pub fn new(seed: u64) -> Draws
        requires { seed < 2 ^ 31 }
        ensures { result.last ≡ seed }
    {
        Draws { last: seed }
    }

    fn draw(&mut self) -> u64
        ensures number { result ≡ drawn self.old.last }
        ensures last { self.new.last ≡ drawn self.old.last }
    {
        let last = self.last;
        self.last = (1_103_515_245 * last + 12_345) % 2_147_483_648;
        self.last
    }

    /// Draws two earlier packages, or one if the draws are equal. Draws nothing for the first package, which has none.
    pub fn draw_needs(&mut self, alloc: Global, number: u64) -> Result<List<u64>, NoMemory>
        ensures needs { IfOk result (λ needs. needs ≡ needs_after self.old.last number) }
        ensures last { self.new.last ≡ after_draws self.old.last (draws_each number) }
    {
        let mut needs = List::new(alloc);
        if number <= 1 {
            return Ok(needs);
        }
        let first = needed(number, self.draw());
        let second = needed(number, self.draw());
        needs.push(first)?;
        if first != second {
            needs.push(second)?;
        }
        Ok(needs)
    }
}

fn needed(number: u64, draw: u64) -> u64
    requires bound { draw < 2 ^ 31 }
    requires later { 1 < number }
    ensures { result ≡ needed number draw }
{
    1 + draw % (number - 1)
}
