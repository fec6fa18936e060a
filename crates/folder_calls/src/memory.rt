// Files, and after `fails at` the calls that are to fail; then calls with their answers, or why the files are no tree.
// `six` means the files below.
use crate::calls::answered;
use crate::files::files;
use outside_folder::{MemFault, MemFolder};
use plan_types::List;
use std::alloc::Global;
use std::test::Fail;

pub(crate) const CASES: &str = "\
six: list ./ => names Z/ a/ b.cabal z
six: list ./a => names b/ x
six: list ./a/b => names c d
six: list ./b => none
six: list ./z => none
six: list ./a/ => none
six: list ./a/b/c => none
six: read ./z => bytes z
six: read ./a/b/c => bytes a/b/c
six: read ./a/b => none
six: read ./y => none
none: list ./ => names
./a: list ./ => names a
./a/b ./a/c/d ./b: list ./ => names a/ b
./a ./ab ./a.b: list ./ => names a a.b ab
./a ./b ./a: list ./ => BadTree
./a ./a/b: list ./ => BadTree
./a/b/c ./x ./a/b: list ./ => BadTree
./: list ./ => BadTree
.//a: list ./ => BadTree
./a/: list ./ => BadTree
./a//b: list ./ => BadTree
./a fails at 4 2: list ./, read ./a, read ./a, list ./, list ./ => names a, Failed, bytes a, Failed, names a
./a=1048576: read ./a => 1048576 bytes
./a=1048577: read ./a => TooLarge
";

const SIX: &str = "./z ./a/b/c ./b.cabal ./a/b/d ./a/x ./Z/y";

fn failing(alloc: Global, numbers: &str) -> Result<List<u64>, Fail> {
    let mut failing = List::new(alloc);
    for number in numbers.split_whitespace() {
        failing.push(number.parse::<u64>()?)?;
    }
    Ok(failing)
}

fn answers(alloc: Global, folder: &mut MemFolder, calls: &str) -> Result<String, Fail> {
    let mut text = String::new(alloc);
    for call in calls.split(", ") {
        let gap = if text.is_empty() { "" } else { ", " };
        let answer = answered(alloc, folder, call)?;
        write!(&mut text, "{gap}{answer}")?;
    }
    Ok(text)
}

fn told(alloc: Global, made: Result<MemFolder, MemFault>, calls: &str) -> Result<String, Fail> {
    match made {
        Ok(mut folder) => answers(alloc, &mut folder, calls),
        Err(fault) => Ok(format!(in alloc; "{fault:?}")?),
    }
}

pub(crate) fn answer(alloc: Global, case: &str) -> Result<String, Fail> {
    let (words, calls) = case.split_once(": ").ok_or("no calls")?;
    let (words, numbers) = words.split_once(" fails at ").unwrap_or((words, ""));
    let words = if words == "six" { SIX } else { words };
    let files = files(alloc, words)?;
    let made = MemFolder::new(alloc, files, failing(alloc, numbers)?);
    told(alloc, made, calls)
}
