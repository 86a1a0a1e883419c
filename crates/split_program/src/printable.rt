//! Texts that a terminal only shows.

use std::alloc::{AllocError, Global};

/// The text with what a terminal would act on escaped, as `\n`, `\x1b` or `\u202e`: on one line, whatever a file's name
/// holds. Accents that stand behind their letter are escaped too.
pub fn printable(alloc: Global, text: &str) -> Result<String, AllocError> {
    let mut shown = String::new(alloc);
    for letter in text.chars() {
        show(&mut shown, letter)?;
    }
    Ok(shown)
}

/// The text with what a terminal would act on escaped, but for its line feeds.
pub fn printable_lines(alloc: Global, text: &str) -> Result<String, AllocError> {
    let mut shown = String::new(alloc);
    for letter in text.chars() {
        if letter == '\n' {
            shown.push(letter)?;
        } else {
            show(&mut shown, letter)?;
        }
    }
    Ok(shown)
}

/// Adds a letter, or its code where it is none that is shown.
fn show(shown: &mut String, letter: char) -> Result<(), AllocError> {
    if is_shown(letter) {
        shown.push(letter)
    } else {
        escape(shown, letter)
    }
}

fn is_shown(letter: char) -> bool {
    letter.is_ascii_graphic()
        || letter == ' '
        || !letter.is_ascii() && letter.escape_debug().len() == 1
}

/// Adds the code of a letter as Python writes it.
fn escape(shown: &mut String, letter: char) -> Result<(), AllocError> {
    let code = u32::from(letter);
    match letter {
        '\n' => shown.push_str("\\n"),
        '\r' => shown.push_str("\\r"),
        '\t' => shown.push_str("\\t"),
        _ if code < 0x100 => write!(shown, "\\x{code:02x}"),
        _ if code < 0x1_0000 => write!(shown, "\\u{code:04x}"),
        _ => write!(shown, "\\U{code:08x}"),
    }
}
