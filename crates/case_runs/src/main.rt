//! Runs the planner on cases. In go files of cases, in the notation of `bin/tool/cases.py`. Out comes, for each file,
//! how many runs passed, and the answers of the others. Each run is made over a folder in memory, and over a folder of
//! the system too if its files are small. Its answer must be the one written in the case, also after a failed call or
//! write. This program has no contract.
#![tactic(auto)]

mod answer;
mod case;
mod content;
mod failing;
mod real_folder;
mod report;
mod rows;
mod short;

use report::report_of;
use std::env::{self, Args};
use std::{fs, io};

fn main(rt: HostRuntime) -> io::Result<()> {
    let mut subjects = env::args(&rt)?;
    let _name = subjects.next();
    report_all(&rt, subjects)
}

fn report_all(rt: &HostRuntime, subjects: Args) -> io::Result<()> {
    for subject in subjects {
        let text = fs::read_to_string(rt, subject.as_str())?;
        let report = report_of(rt, subject.as_str(), text.as_str())?;
        print!(rt; "{report}")?;
    }
    Ok(())
}
