//! Runs rows of files: what the tool, and what each reader of text, is to answer to a text.
//!
//! The words of the program name files, which are read in this order. One whose name ends in `.rows` has rows, as README.md
//! says; any other is a text of its name, without the folders before it, for the rows after it.
#![tactic(auto)]

mod command;

use crate::command::InMemory;
use row_reader::run_files;
use std::process::ExitCode;

fn main(rt: HostRuntime) -> ExitCode {
    match run_files(&rt, &InMemory) {
        Ok(true) => ExitCode::SUCCESS,
        _ => ExitCode::FAILURE,
    }
}
