//! The program: `h2audit [--workers N] [--groups N] [--block N] [--frames] [FILE]`.
#![tactic(auto)]

use h2audit::{CaptureReader, Outside, ReportWriter, program_words, run_program};
use std::env;
use std::fs::File;
use std::process::ExitCode;

fn main(rt: HostRuntime) -> ExitCode {
    run_program(
        &rt,
        program_words(rt.alloc(), env::args(&rt)),
        &mut Outside {
            open_file: |path: &str| File::open(&rt, path),
            say: |line: &str| {
                let _ = rt.eprintln(line);
            },
            input: CaptureReader::new(rt.alloc(), rt.stdin()),
            file: None,
            output: ReportWriter::new(rt.stdout()),
        },
    )
}
