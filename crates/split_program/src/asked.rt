//! What the words of the command line ask for.

ghost use Rattle.std.specs.Prelude.{◌<◌};

/// A split, or a text to show.
#[derive(Drop)]
pub enum Asked {
    Split(Words),
    Text(String),
}

/// The parts, where they go, and the files of the capture.
#[derive(Drop)]
pub struct Words {
    pub parts: usize,
    pub folder: String,
    pub files: Vec<String>,
    pub ghost some: { 0 < parts },
}
