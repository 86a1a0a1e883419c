//! The program: `h2audit-split --parts N -o DIR [FILE..]`. It makes parts of a capture of any size, each of which is a
//! capture that h2audit reads.
//!
//! - `split_program` says what it does, for every answer of the outside, and `capture_parts` which record goes to which
//!   part.
//! - What is handed over here is trusted: each method of `Host` makes the one call that it is named for.
//! - Tested, in `tests/` and `tools/tests/core/splitter_test.py` at the root: the texts of help and of refused words;
//!   the parts of whole captures, beside a model; reports of parts, merged; files and folders of a real disk.
#![tactic(auto)]

ghost use Rattle.std.specs.Prelude.{⊤};

use capture_parts::Outside;
use split_program::run_program;
use std::fs::{self, File};
use std::process::ExitCode;
use std::rt::Files;
use std::{env, io};

fn main(rt: HostRuntime) -> ExitCode {
    let mut input = rt.stdin();
    run_program(
        rt.alloc(),
        env::args(&rt),
        &mut input,
        &mut Host { rt: &rt },
    )
}

/// The machine that the program runs on.
#[derive(Drop)]
struct Host<'a, R> {
    rt: &'a R,
}

impl<R: Files + Print + Eprint> Outside<R::File> for Host<'_, R> {
    ghost does = { λ before call after. ⊤ };

    fn open(&mut self, path: &str) -> io::Result<R::File> {
        File::open(self.rt, path)
    }

    fn make_folder(&mut self, path: &str) -> io::Result<()> {
        fs::create_dir(self.rt, path)
    }

    fn create(&mut self, path: &str) -> io::Result<R::File> {
        File::create(self.rt, path)
    }

    fn write(&mut self, path: &str, text: &str) -> io::Result<()> {
        fs::write(self.rt, path, text)
    }

    fn remove_file(&mut self, path: &str) -> io::Result<()> {
        fs::remove_file(self.rt, path)
    }

    fn remove_folder(&mut self, path: &str) -> io::Result<()> {
        fs::remove_dir(self.rt, path)
    }

    fn print(&mut self, text: &str) -> io::Result<()> {
        self.rt.print(text)
    }

    fn say(&mut self, line: &str) {
        let _ = self.rt.eprintln(line);
    }
}
