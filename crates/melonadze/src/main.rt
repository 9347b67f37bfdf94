// Reads a script, works it off on a new house book, and prints its answers.
#![tactic(auto)]

use anyhow::anyhow;
use house::print_house_script;
use std::process::ExitCode;
use std::{env, fs, io};

// The script: the file that the one argument names, or standard input where there is none.
fn read_script(rt: &HostRuntime) -> anyhow::Result<String> {
    let mut arguments = env::args(rt)?;
    let _program = arguments.next();
    let Some(path) = arguments.next() else {
        return Ok(io::read_to_string(rt.alloc(), rt.stdin())?);
    };
    if arguments.next().is_some() {
        return Err(anyhow!("usage: melonadze [SCRIPT]"));
    }
    fs::read_to_string(rt, path.as_str()).map_err(|error| anyhow!("cannot read {path}: {error}"))
}

fn work_off(rt: &HostRuntime) -> anyhow::Result<()> {
    let text = read_script(rt)?;
    let output = print_house_script(rt.alloc(), text.as_str())?;
    Ok(rt.print(output.as_str())?)
}

fn main(rt: HostRuntime) -> anyhow::Result<ExitCode> {
    match work_off(&rt) {
        Ok(()) => Ok(ExitCode::SUCCESS),
        Err(error) => {
            eprintln!(rt; "melonadze: {error}")?;
            Ok(ExitCode::FAILURE)
        }
    }
}
