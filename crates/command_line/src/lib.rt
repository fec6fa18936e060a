//! Reads the words of the command line. In go the words after the program's name; out comes the command that they
//! mean, or that they have no reading. The test of this crate alone decides which words have one. Only these go to
//! the parser of `clap`, which then finds the values of options and fails only out of memory.
#![tactic(auto)]

mod command_name;
mod form;
mod option_name;
mod parser;
mod reading;
mod words;

pub use reading::{Command, Options, WordsFault, default_options, read_words};
