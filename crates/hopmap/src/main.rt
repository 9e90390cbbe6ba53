// Shows and joins logs of frames that were sent and heard.
#![tactic(auto)]

mod args;
mod fetch;
mod grades;
mod key_kinds;
mod lines;
mod load;
mod sequence;
mod settings;
mod show;
mod table;
mod totals;
mod usage;
mod verb;
mod wanted;

use args::Command;
use grades::GradeCounts;
use lines::GradeLine;
use settings::Settings;
use sources::source::Closing;
use std::io::{BufWriter, Write};
use std::process::ExitCode;
use std::{env, fs, io};

// Status 0 where a log ends as it should, and 1 where it has a fault.
fn exit_of(closing: Closing) -> ExitCode {
    match closing {
        Ok(()) => ExitCode::SUCCESS,
        Err(_) => ExitCode::FAILURE,
    }
}

// The bytes of a file; if it cannot be read, prints its name and why.
fn read_file(rt: &HostRuntime, name: &str) -> io::Result<Option<Vec<u8>>> {
    match fs::read(rt, name) {
        Ok(bytes) => Ok(Some(bytes)),
        Err(error) => {
            eprintln!(rt; "hopmap: {name}: {error}")?;
            Ok(None)
        }
    }
}

fn show_file(rt: &HostRuntime, log: &str, settings: &Settings) -> io::Result<ExitCode> {
    let Some(bytes) = read_file(rt, log)? else {
        return Ok(ExitCode::FAILURE);
    };
    let mut out = BufWriter::new(rt.alloc(), rt.stdout())?;
    let closing = show::show(rt.alloc(), &mut out, bytes.as_slice(), settings)?;
    out.flush()?;
    Ok(exit_of(closing))
}

fn print_counts(rt: &HostRuntime, counts: &GradeCounts) -> io::Result<()> {
    for (grade, rows) in (1..=5).zip(counts.graded) {
        let line = GradeLine {
            grade: Some(grade),
            rows,
        };
        println!(rt; "{line}")?;
    }
    let line = GradeLine {
        grade: None,
        rows: counts.not_measured,
    };
    println!(rt; "{line}")
}

fn grades_of_file(rt: &HostRuntime, log: &str) -> io::Result<ExitCode> {
    let Some(bytes) = read_file(rt, log)? else {
        return Ok(ExitCode::FAILURE);
    };
    let (counts, summary) = grades::count_grades(rt.alloc(), bytes.as_slice())?;
    print_counts(rt, &counts)?;
    println!(rt; "{summary}")?;
    Ok(exit_of(summary.closing))
}

fn table_of_files(
    rt: &HostRuntime,
    sent: &str,
    heard: &str,
    settings: &Settings,
) -> io::Result<ExitCode> {
    let Some(left) = read_file(rt, sent)? else {
        return Ok(ExitCode::FAILURE);
    };
    let Some(right) = read_file(rt, heard)? else {
        return Ok(ExitCode::FAILURE);
    };
    match table::table(rt.alloc(), left.as_slice(), right.as_slice(), settings) {
        Ok(records) => {
            let mut out = BufWriter::new(rt.alloc(), rt.stdout())?;
            for record in records.as_slice() {
                writeln!(out, "{record}")?;
            }
            let count = records.len();
            writeln!(out, "{count} records")?;
            out.flush()?;
            Ok(ExitCode::SUCCESS)
        }
        Err(refusal) => {
            eprintln!(rt; "{refusal}")?;
            Ok(ExitCode::FAILURE)
        }
    }
}

fn run(rt: &HostRuntime) -> io::Result<ExitCode> {
    let words: Vec<String> = env::args(rt)?.skip(1).collect(rt.alloc())?;
    match args::read(words.as_slice()) {
        Ok(Command::Help) => {
            rt.print(usage::USAGE)?;
            Ok(ExitCode::SUCCESS)
        }
        Ok(Command::Show { log, settings }) => show_file(rt, log, &settings),
        Ok(Command::Grades { log }) => grades_of_file(rt, log),
        Ok(
            Command::Table {
                sent,
                heard,
                settings,
            },
        ) => table_of_files(rt, sent, heard, &settings),
        Err(error) => {
            eprintln!(rt; "hopmap: {error}")?;
            if error.is_about_call() {
                rt.eprint(usage::USAGE)?;
            }
            Ok(ExitCode::FAILURE)
        }
    }
}

// Where what there is to say is printed already, ends with status 1 and without a further word.
fn main(rt: HostRuntime) -> ExitCode {
    match run(&rt) {
        Ok(code) => code,
        Err(error) => {
            let _ = eprintln!(rt; "hopmap: {error}");
            ExitCode::FAILURE
        }
    }
}
