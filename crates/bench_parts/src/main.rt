//! What `bench/run` and `bench/star` run: the reading of CSV files, and the making and merging of
//! documents of a star-tree.
#![tactic(auto)]

mod rows;
mod star;

use crate::rows::run_rows;
use crate::star::run_star;
use std::process::ExitCode;
use std::{env, io};

// `star ROWS`, `rows SCHEMA CSV [dictionaries]`, or the first and then the second.
fn run(rt: &HostRuntime, words: &[String]) -> io::Result<ExitCode> {
    match words {
        [first, rest @ ..] if first.as_str() == "rows" => run_rows(rt, rest),
        [first, count] if first.as_str() == "star" => {
            run_star(rt, count.as_str())?;
            Ok(ExitCode::from(0))
        }
        [first, count, _, rest @ ..] if first.as_str() == "star" => {
            run_star(rt, count.as_str())?;
            run_rows(rt, rest)
        }
        _ => Ok(ExitCode::from(2)),
    }
}

fn main(rt: HostRuntime) -> io::Result<ExitCode> {
    let words: Vec<String> = env::args(&rt)?.skip(1).collect(rt.alloc())?;
    run(&rt, words.as_slice())
}
