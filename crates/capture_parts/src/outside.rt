//! What a split asks of the outside.

ghost use Rattle.std.specs.Prelude.{is_ok};
ghost use Rattle.capture_parts.specs.Outside.{Call, Created, MadeFolder, Opened, Printed, RemovedFile, RemovedFolder};
ghost use Rattle.capture_parts.specs.Outside.{Said, Wrote};

use std::io;

/// The outside, where files are opened as `F`.
pub trait Outside<F> {
    // A call, with its answer, takes the first state of the outside to the second.
    ghost does: { Self → Call F → Self → Type 0 };

    /// Opens a file that is read.
    fn open(&mut self, path: &str) -> io::Result<F>
        ensures { does self.old (Opened path.now result) self.new };

    /// Makes a folder, which must not be there.
    fn make_folder(&mut self, path: &str) -> io::Result<()>
        ensures { does self.old (MadeFolder path.now (is_ok result)) self.new };

    /// Makes a file that is written, or empties it.
    fn create(&mut self, path: &str) -> io::Result<F>
        ensures { does self.old (Created path.now result) self.new };

    /// Makes a file with this text.
    fn write(&mut self, path: &str, text: &str) -> io::Result<()>
        ensures { does self.old (Wrote path.now text.now (is_ok result)) self.new };

    fn remove_file(&mut self, path: &str) -> io::Result<()>
        ensures { does self.old (RemovedFile path.now (is_ok result)) self.new };

    /// Removes a folder, which must be empty.
    fn remove_folder(&mut self, path: &str) -> io::Result<()>
        ensures { does self.old (RemovedFolder path.now (is_ok result)) self.new };

    /// Writes a text to standard output.
    fn print(&mut self, text: &str) -> io::Result<()>
        ensures { does self.old (Printed text.now (is_ok result)) self.new };

    /// Says a line on standard error.
    fn say(&mut self, line: &str)
        ensures { does self.old (Said line.now) self.new };
}
