// The bench console: commands on standard input, one to a line, and one line of answer to each on standard output.
//
// command.rt   a line of a script as a command, or what is wrong with it
// answer.rt    what a command answers
// bench.rt     what is kept between commands: line records
//
// The console parses and prints. All that it answers comes from the proved libraries below it.

#![tactic(auto)]

mod answer;
mod bench;
mod command;

use bench::Bench;
use std::io::{BufRead, BufReader};

fn main(rt: HostRuntime) -> anyhow::Result<()> {
    let heap = rt.alloc();
    let mut bench = Bench::new(heap);
    for line in BufReader::new(heap, rt.stdin())?.split(heap, b'\n') {
        let line = line?;
        match bench.respond(line.as_slice()) {
            Ok(Some(text)) => println!(rt; "{text}")?,
            Ok(None) => {}
            Err(mistake) => println!(rt; "error {mistake}")?,
        }
    }
    Ok(())
}
