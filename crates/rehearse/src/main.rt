// Reads a script of calls, makes them on a house, and prints what each answers and leaves.
#![tactic(auto)]

mod bench;
mod fault;
mod house;
mod make;
mod script;
mod session;
mod show;
mod source;
mod term;
mod watch;
mod wired;

use crate::bench::bench;
use crate::session::Session;
use std::{env, fs, io};

const HELP: &str = "\
rehearse [--answers | --bench] [SCRIPT]
Reads a script of calls from the file SCRIPT, or from standard input, makes them,
and prints after each what it answered and what every table then holds.
  --answers   print only the lines and their answers
  --bench     print only how often each call came, and its mean time in nanoseconds
  --help      print this
";

#[derive(Drop)]
struct Options {
    answers: bool,
    bench: bool,
    help: bool,
    path: Option<String>,
}

fn read_options(rt: &HostRuntime) -> anyhow::Result<Options> {
    let mut options = Options {
        answers: false,
        bench: false,
        help: false,
        path: None,
    };
    for arg in env::args(rt)?.skip(1) {
        match arg.as_str() {
            "--answers" => options.answers = true,
            "--bench" => options.bench = true,
            "--help" => options.help = true,
            _ => options.path = Some(arg),
        }
    }
    Ok(options)
}

fn read_script(rt: &HostRuntime, path: Option<String>) -> io::Result<String> {
    match path {
        Some(path) => fs::read_to_string(rt, path.as_str()),
        None => io::read_to_string(rt.alloc(), rt.stdin()),
    }
}

// Obeys each line, and prints its block.
fn rehearse(rt: &HostRuntime, text: &str, answers: bool) -> anyhow::Result<()> {
    let mut session = Session::new(rt, answers);
    for (i, line) in text.lines().enumerate() {
        let block = session
            .line(line)
            .map_err(|fault| fault.at(i.wrapping_add(1)))?;
        rt.print(block)?;
    }
    Ok(())
}

fn run(rt: &HostRuntime) -> anyhow::Result<()> {
    let options = read_options(rt)?;
    if options.help {
        rt.print(HELP)?;
        return Ok(());
    }
    let text = read_script(rt, options.path)?;
    if options.bench {
        return bench(rt, text.as_str());
    }
    rehearse(rt, text.as_str(), options.answers)
}

fn main(rt: HostRuntime) -> anyhow::Result<()> {
    run(&rt)
}
