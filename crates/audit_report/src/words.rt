ghost use Rattle.std.specs.Prelude.{◌≡◌, ◌++◌, OnOk};
ghost use Rattle.audit_report.specs.Line.{field};

use itoa::Buffer;
use std::alloc::AllocError;

/// Adds a word to the text.
pub(crate) fn push_word(out: &mut Vec<u8>, word: &str) -> Result<(), AllocError>
    ensures { OnOk result (out.new.items ≡ out.old.items ++ word.now) }
{
    out.extend_from_slice(word.as_bytes())
}

/// Adds two words.
pub(crate) fn push_words(out: &mut Vec<u8>, first: &str, second: &str) -> Result<(), AllocError>
    ensures { OnOk result (out.new.items ≡ out.old.items ++ (first.now ++ second.now)) }
{
    push_word(out, first)?;
    push_word(out, second)
}

/// Adds a name and the number that it names, in decimal.
pub(crate) fn push_field(out: &mut Vec<u8>, name: &str, n: u64) -> Result<(), AllocError>
    ensures { OnOk result (out.new.items ≡ out.old.items ++ field name.now n) }
{
    let mut digits = Buffer::new();
    push_words(out, name, digits.format(n))
}
