//! The loop over a table of calls. Tests alone use it, and it promises nothing.
#![tactic(auto)]

use std::alloc::Global;
use std::test::Fail;

/// A table of calls, with their answers.
pub trait CallTable {
    /// One case a line: a call, and after the last ` => ` its answer.
    fn cases(&self) -> &'static str;

    /// The answer of a call.
    fn answer(&self, alloc: Global, call: &str) -> Result<String, Fail>;
}

/// The cases of a table with a wrong answer, and this answer below each.
pub fn others<T: CallTable>(alloc: Global, table: &T) -> Result<String, Fail> {
    let mut others = String::new(alloc);
    for line in table.cases().lines() {
        let (call, wanted) = line.rsplit_once(" => ").ok_or("no answer")?;
        let found = table.answer(alloc, call)?;
        if found.as_str() != wanted {
            others.push_str(format!(in alloc; "{line}\n{found}\n")?.as_str())?;
        }
    }
    Ok(others)
}
