// What is asked for by the words of the command line: rows of files, or library calls.

use crate::bench::Bench;
use crate::calls::{CALLS, text_of_call};
use crate::report::Report;
use crate::row_error::RowError;
use crate::state::State;
use std::alloc::Global;
use std::rt::{Env, Files};
use std::{fs, io};

/// How many rows were run, and how many of them failed.
#[derive(Clone, Copy)]
struct Tally {
    rows: usize,
    failed: usize,
}

impl Bench {
    // Reports the rows of a text that fail, and answers how many it has. A text without rows is a failure.
    fn try_rows(&self, text: &str, report: &mut Report<'_>) -> usize {
        let mut state = State::new(self.alloc);
        let mut number = 0usize;
        for line in text.lines() {
            number = number.saturating_add(1);
            self.step(&mut state, number, line, report);
        }
        state.finish(report);
        if state.rows == 0 {
            report.go_to(1);
            report.fail(RowError::NoRow);
        }
        state.rows
    }

    // Prints what is wrong with the rows of a file, and counts them.
    fn run_file(&self, rt: &(impl Files + Print + AllocGlobal), name: &str) -> io::Result<Tally> {
        let text = fs::read_to_string(rt, name)?;
        let mut report = Report::new(self.alloc, name);
        let rows = self.try_rows(text.as_str(), &mut report);
        print!(rt; "{}", report.text)?;
        Ok(Tally {
            rows,
            failed: report.failed,
        })
    }

    // Runs the rows of these files, and answers whether there is a row and none failed.
    fn run_files(
        &self,
        rt: &(impl Files + Print + AllocGlobal),
        names: &[String],
    ) -> io::Result<bool> {
        let mut all = Tally { rows: 0, failed: 0 };
        for name in names {
            let tally = self.run_file(rt, name.as_str())?;
            all.rows = all.rows.saturating_add(tally.rows);
            all.failed = all.failed.saturating_add(tally.failed);
        }
        println!(rt; "{} rows, {} failed", all.rows, all.failed)?;
        Ok(all.rows > 0 && all.failed == 0)
    }
}

// Makes a library call, prints how it ended, and answers whether it was done.
fn run_call(rt: &impl Print, alloc: Global, name: &str) -> io::Result<bool> {
    let text = text_of_call(alloc, name);
    println!(rt; "{name}: {text}")?;
    Ok(text == "done")
}

fn run_calls(rt: &impl Print, alloc: Global) -> io::Result<bool> {
    let mut all_done = true;
    for name in CALLS {
        all_done &= run_call(rt, alloc, name)?;
    }
    Ok(all_done)
}

/// Does what the command line says, and answers whether nothing failed: `call` and a name make one library call, `call` alone
/// each of them; other words name files of rows, of which there is at least one.
pub fn run(rt: &(impl Env + Files + Print + AllocGlobal)) -> io::Result<bool> {
    let alloc = rt.alloc();
    let words: Vec<String> = std::env::args(rt)?.skip(1).collect(alloc)?;
    match words.as_slice() {
        [call, name, ..] if call.as_str() == "call" => run_call(rt, alloc, name.as_str()),
        [call] if call.as_str() == "call" => run_calls(rt, alloc),
        names => Bench { alloc }.run_files(rt, names),
    }
}
