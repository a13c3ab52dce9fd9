// The program: standard input, or the file that its argument names, answered line by line on standard output.
#![tactic(auto)]

use desk::Console;
use std::env;
use std::fs::File;
use std::io::{Read, Write};
use std::process::ExitCode;

// How many bytes are read at once. Their answers are written before the next read, so each comes as soon as its line does.
const CHUNK: usize = 65_536;

// Answers the whole input, and tells whether a line of it was no command.
fn converse(rt: &HostRuntime, input: &mut impl Read) -> anyhow::Result<bool> {
    let heap = rt.alloc();
    let mut output = rt.stdout();
    let mut console = Console::open(heap);
    let mut chunk = vec![in heap; 0; CHUNK]?;
    let mut text = String::new(heap);
    for _ in 0..u64::MAX {
        let count = input.read(&mut chunk)?;
        if count == 0 {
            break;
        }
        console.hear(&chunk[0..count], &mut text)?;
        output.write_all(text.as_bytes())?;
        text.clear();
    }
    let faulty = console.close(&mut text)?;
    output.write_all(text.as_bytes())?;
    Ok(faulty)
}

fn run(rt: &HostRuntime) -> anyhow::Result<bool> {
    match env::args(rt)?.nth(1) {
        Some(path) => converse(rt, &mut File::open(rt, path)?),
        None => converse(rt, &mut rt.stdin()),
    }
}

// Ends with status 1 where a line was no command, and where reading or writing failed, which it says.
fn main(rt: HostRuntime) -> ExitCode {
    match run(&rt) {
        Ok(false) => ExitCode::SUCCESS,
        Ok(true) => ExitCode::FAILURE,
        Err(error) => {
            let _ = eprintln!(rt; "kunelappi: {error}");
            ExitCode::FAILURE
        }
    }
}
