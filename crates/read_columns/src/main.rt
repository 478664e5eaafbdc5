// read_columns FILE KIND optional|required CHUNK LIMIT, and options: reads the pages of a column and prints its rows chunk by
// chunk.
#![tactic(auto)]

mod columns;

use anyhow::anyhow;
use cli::heads::heads_of;
use cli::options::{Column, choose_column, read_options};
use cli::words::{Wanted, understand};
use columns::print_column;
use pages::directory::Directory;
use pages::stream::Stream;
use std::process::ExitCode;
use std::{env, fs};

const USAGE: &str =
    "usage: read_columns FILE KIND optional|required CHUNK LIMIT [--conversion keep|widen|unsigned] [--directory HEADS]";

// The words of the command line after the program's name: all of them, where read_column takes six at most.
fn arguments(rt: &HostRuntime) -> anyhow::Result<Vec<String>> {
    let mut words = Vec::new(rt.alloc());
    for word in env::args(rt)?.skip(1) {
        words.push(word)?;
    }
    Ok(words)
}

// The pages lie in a buffer, where the heads of another file say.
fn read_directory(
    rt: &HostRuntime,
    wanted: Wanted,
    column: Column,
    buffer: &[u8],
    file: &str,
) -> anyhow::Result<()> {
    let Ok(bytes) = fs::read(rt, file) else {
        return Err(anyhow!("the file of heads cannot be read"));
    };
    let Some(heads) = heads_of(rt.alloc(), bytes.as_slice())? else {
        return Err(anyhow!("the file of heads has no whole number of heads of 15 bytes"));
    };
    let mut source = Directory::new(buffer, heads.as_slice());
    print_column(rt, wanted, column, &mut source)
}

fn run(rt: &HostRuntime) -> anyhow::Result<()> {
    let words = arguments(rt)?;
    let [file, kind, flag, chunk, limit, rest @ ..] = words.as_slice() else {
        return Err(anyhow!("five words are wanted"));
    };
    let wanted = understand(kind.as_str(), flag.as_str(), chunk.as_str(), limit.as_str())?;
    let options = read_options(rest)?;
    let column = choose_column(wanted.kind, options.converts)?;
    let Ok(bytes) = fs::read(rt, file.as_str()) else {
        return Err(anyhow!("the file cannot be read"));
    };
    let Some(heads) = options.heads.and_then(|i| rest.get(i)) else {
        return print_column(rt, wanted, column, &mut Stream::new(bytes.as_slice()));
    };
    read_directory(rt, wanted, column, bytes.as_slice(), heads.as_str())
}

fn main(rt: HostRuntime) -> ExitCode {
    match run(&rt) {
        Ok(()) => ExitCode::SUCCESS,
        Err(e) => {
            let _ = eprintln!(rt; "read_columns: {e}");
            let _ = eprintln!(rt; "{USAGE}");
            ExitCode::FAILURE
        }
    }
}
