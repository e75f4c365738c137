//! The program `unifyfs`: runs the command that its words name, on standard input and output.
#![tactic(auto)]

mod standard_input;
mod standard_output;

ghost use Rattle.std.specs.Prelude.{◌≡◌, option_map};
ghost use Rattle.unifyfs.specs.Messages.{message_of};

use crate::standard_input::StandardInput;
use crate::standard_output::StandardOutput;
use fs_dev::NoHost;
use fs_types::{Status, Want};
use std::env;
use std::io::ErrorKind;
use std::process::ExitCode;
use top_call::top;

// The words after the program's name. Where one of them is no text there are none, which is no
// command.
fn command_words(rt: &HostRuntime) -> Result<Vec<String>, Want> {
    match env::args(rt) {
        Ok(words) => Ok(words.skip(1).collect(rt.alloc())?),
        Err(e) if e.kind() == ErrorKind::OutOfMemory => Err(Want),
        Err(_) => Ok(Vec::new(rt.alloc())),
    }
}

// What standard error is told of a status, where standard output tells too little of it.
fn message(status: Status) -> Option<&'static str>
    ensures { option_map (λ text. text.now) result ≡ message_of status }
{
    match status {
        Status::Done | Status::Usage | Status::Refused => None,
        Status::ReadFault => Some("unifyfs: read fault"),
        Status::WriteFault => Some("unifyfs: write fault"),
        Status::Memory => Some("unifyfs: out of memory"),
    }
}

fn main(rt: HostRuntime) -> ExitCode {
    let mut input = StandardInput::new(rt.stdin());
    let mut output = StandardOutput::new(rt.stdout());
    let mut host = NoHost::new();
    let status = match command_words(&rt) {
        Ok(words) => top(&rt, rt.alloc(), &words, &mut input, &mut output, &mut host),
        Err(Want) => Status::Memory,
    };
    if let Some(text) = message(status) {
        // Where this fails too there is no stream left to say so.
        let _ = rt.eprintln(text);
    }
    ExitCode::from(status.code())
}

#[cfg(test)]
mod tests;
