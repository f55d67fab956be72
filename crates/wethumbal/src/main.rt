// The program: reads a text from the file that is named, or from standard input, and prints the answer or why there is none.
#![tactic(auto)]

use std::alloc::AllocError;
use std::io::Read;
use std::process::ExitCode;
use std::{env, fs, io};

const HELP: &str = "wethumbal FILE [LINE]...  what has to be bought for the streams in FILE;
                          each LINE is read behind it
wethumbal                 the same for standard input, which is also FILE -

A text has a line for each stream, from and to in the way it goes, and heat
for each degree:

    hot 180 60 3     # cooled from 180 to 60 degrees, 3 for each degree
    cold 20 135 2    # warmed from 20 to 135 degrees, 2 for each degree
    gap 10           # degrees between what gives and what takes, at least
    plan             # print the transfers too

What follows a # and blank lines are skipped. There are at most 64 streams;
the higher temperature of each and the gap come to 1000 together at most;
heat for each degree is 1 to 1000000.

It prints what the boiler gives, what goes to the river, and where nothing
may pass, and with `plan` a line for each transfer:

    boiler 20, river 30, nothing passes at 90

A text that can't be used is answered on standard error by
`turned away NUMBER at PLACE: ` and a sentence, with exit status 1.
";

const VERSION: &str = "wethumbal 0.1.0, proved with rattle-kit-13f logic dac8208d650f15bf\n";

// All bytes of the file that is named, or of standard input.
fn input(rt: &HostRuntime, name: &str) -> io::Result<Vec<u8>> {
    if name != "-" {
        return fs::read(rt, name);
    }
    let mut bytes = Vec::new(rt.alloc());
    rt.stdin().read_to_end(&mut bytes)?;
    Ok(bytes)
}

// One more line behind the text.
fn add_line(text: &mut Vec<u8>, line: &str) -> Result<(), AllocError> {
    if text.last().is_some_and(|b| *b != b'\n') {
        text.push(b'\n')?;
    }
    text.extend_from_slice(line.as_bytes())
}

// Prints the answer, or why there is none.
fn answer(rt: &HostRuntime, text: &[u8]) -> io::Result<ExitCode> {
    match text::answer(rt.alloc(), text) {
        Ok(printed) => {
            rt.print(printed)?;
            Ok(ExitCode::SUCCESS)
        }
        Err(turned) => {
            eprintln!(rt; "{turned}")?;
            Ok(ExitCode::FAILURE)
        }
    }
}

// Does what the words of the command say.
fn run(rt: &HostRuntime) -> anyhow::Result<ExitCode> {
    let mut args = env::args(rt)?;
    let _program = args.next();
    let named = args.next();
    match named.as_deref().unwrap_or("-") {
        "--help" => rt.print(HELP)?,
        "--version" => rt.print(VERSION)?,
        name => {
            let mut text = input(rt, name)?;
            for line in args {
                add_line(&mut text, line.as_str())?;
            }
            return Ok(answer(rt, text.as_slice())?);
        }
    }
    Ok(ExitCode::SUCCESS)
}

fn main(rt: HostRuntime) -> io::Result<ExitCode> {
    match run(&rt) {
        Ok(status) => Ok(status),
        Err(e) => {
            eprintln!(rt; "wethumbal: there is no answer: {e}")?;
            Ok(ExitCode::FAILURE)
        }
    }
}
