// read_column FILE KIND optional|required CHUNK LIMIT: reads a page stream and prints its rows chunk by chunk.
#![tactic(auto)]

mod chunks;
mod words;

use anyhow::anyhow;
use std::process::ExitCode;
use std::{env, fs};
use words::understand;

const USAGE: &str = "usage: read_column FILE KIND optional|required CHUNK LIMIT";

// The words of the command line after the program's name, at most six of them.
fn arguments(rt: &HostRuntime) -> anyhow::Result<Vec<String>> {
    let mut words = Vec::new(rt.alloc());
    for word in env::args(rt)?.skip(1).take(6) {
        words.push(word)?;
    }
    Ok(words)
}

fn run(rt: &HostRuntime) -> anyhow::Result<()> {
    let words = arguments(rt)?;
    let [file, kind, flag, chunk, limit] = words.as_slice() else {
        return Err(anyhow!("five words are wanted"));
    };
    let wanted = understand(kind.as_str(), flag.as_str(), chunk.as_str(), limit.as_str())?;
    let Ok(bytes) = fs::read(rt, file.as_str()) else {
        return Err(anyhow!("the file cannot be read"));
    };
    chunks::print_pages(rt, wanted, bytes.as_slice())
}

fn main(rt: HostRuntime) -> ExitCode {
    match run(&rt) {
        Ok(()) => ExitCode::SUCCESS,
        Err(e) => {
            let _ = eprintln!(rt; "read_column: {e}");
            let _ = eprintln!(rt; "{USAGE}");
            ExitCode::FAILURE
        }
    }
}
