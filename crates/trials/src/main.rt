// Prints what scripts print, each under its file's name: the arguments name the files. What is printed is compared with
// the file `stdout`.
//
// The modules are tests of the dates, the machines and the scripts at their edges: the last value that is taken and the
// first that is not.
#![tactic(auto)]

#[cfg(test)]
mod bad_lines;
#[cfg(test)]
mod board;
#[cfg(test)]
mod counter;
#[cfg(test)]
mod date_laws;
#[cfg(test)]
mod day_numbers;
#[cfg(test)]
mod good_lines;
#[cfg(test)]
mod inset;
#[cfg(test)]
mod pair;
#[cfg(test)]
mod queue;
#[cfg(test)]
mod refusals;
#[cfg(test)]
mod runs;
#[cfg(test)]
mod survey_dates;
#[cfg(test)]
mod tally;

use house::print_house_script;
use std::{env, fs};

fn main(rt: HostRuntime) -> anyhow::Result<()> {
    for path in env::args(&rt)?.skip(1) {
        let text = fs::read_to_string(&rt, path.as_str())?;
        println!(rt; "{path}")?;
        match print_house_script(rt.alloc(), text.as_str()) {
            Ok(output) => rt.print(output.as_str())?,
            Err(fault) => println!(rt; "{fault}")?,
        }
    }
    Ok(())
}
