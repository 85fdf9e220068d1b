use crate::expand::Texts;
use crate::report::Report;
use crate::sheet::{Tool, run_sheet};
use std::{env, fs, io};

/// Runs the rows of all files that the words of the program name, and says whether all held.
pub fn run_files<T: Tool>(rt: &HostRuntime, tool: &T) -> io::Result<bool> {
    let mut texts = Texts::new(rt.alloc());
    let mut rows = 0u64;
    let mut held = 0u64;
    for (number, name) in env::args(rt)?.enumerate() {
        if number > 0 {
            let report = run_file(rt, tool, &mut texts, name.as_str())?;
            rows = rows.saturating_add(report.rows);
            held = held.saturating_add(report.held);
        }
    }
    println!(rt; "{held} of {rows} rows held")?;
    Ok(held == rows)
}

/// Runs the rows of a file, or names its text.
fn run_file<T: Tool>(
    rt: &HostRuntime,
    tool: &T,
    texts: &mut Texts,
    name: &str,
) -> io::Result<Report> {
    let bytes = fs::read(rt, name)?;
    let mut report = Report::new(rt.alloc());
    if name.ends_with(".rows") {
        run_sheet(
            tool,
            rt.alloc(),
            texts,
            name.as_bytes(),
            bytes.as_slice(),
            &mut report,
        )?;
        print_report(rt, name, &report)?;
    } else {
        texts.name_bytes(last_part(name).as_bytes(), bytes)?;
    }
    Ok(report)
}

/// The name of a file without the folders before it.
fn last_part(path: &str) -> &str {
    match path.rsplit_once('/') {
        Some((_, last)) => last,
        None => path,
    }
}

fn print_report(rt: &HostRuntime, name: &str, report: &Report) -> io::Result<()> {
    match std::str::from_utf8(report.text.bytes()) {
        Ok(text) => print!(rt; "{text}")?,
        Err(_) => println!(rt; "{name}: what is to be said of it is no UTF-8")?,
    }
    println!(rt; "{name}: {} of {}", report.held, report.rows)
}
