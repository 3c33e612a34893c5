//! The command line program: renders a file to standard output.
#![tactic(auto)]

mod program;
mod render;
#[cfg(test)]
mod rows;

use crate::program::{Texts, run};
use mj_words::{Refusal, tell_refusal};
use std::io::{self, BufWriter, Read};
use std::process::ExitCode;
use std::{env, fs};
use template_machine::Counted;

/// The files of the system, and standard input.
#[derive(Drop)]
struct Files<'a> {
    rt: &'a HostRuntime,
}

impl Texts for Files<'_> {
    fn file(&mut self, path: &str) -> io::Result<Vec<u8>> {
        fs::read(self.rt, path)
    }

    fn standard_input(&mut self) -> io::Result<Vec<u8>> {
        let mut bytes = Vec::new(self.rt.alloc());
        self.rt.stdin().read_to_end(&mut bytes)?;
        Ok(bytes)
    }
}

fn main(rt: HostRuntime) -> ExitCode {
    ExitCode::from(status(&rt))
}

/// Collects the arguments and the standard streams, and runs the program.
fn status(rt: &HostRuntime) -> u8 {
    let alloc = rt.alloc();
    let mut err = Counted::new(rt.stderr());
    let words = match words(rt) {
        Ok(words) => words,
        Err(error) => return tell_refusal(&mut err, Refusal::of_read(&error)),
    };
    // Without a buffer, each piece of a render would be a system call.
    let mut out = match BufWriter::new(alloc, rt.stdout()) {
        Ok(out) => Counted::new(out),
        Err(error) => return tell_refusal(&mut err, Refusal::of_read(&error)),
    };
    run(alloc, &words, &mut Files { rt }, &mut out, &mut err)
}

/// The arguments after the program's name.
fn words(rt: &HostRuntime) -> io::Result<Vec<String>> {
    let mut words = env::args(rt)?;
    words.next();
    Ok(words.collect(rt.alloc())?)
}
