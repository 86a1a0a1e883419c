//! Splits a capture that comes in files.

ghost use Rattle.std.specs.Prelude.{◌≡◌, ◌⊎◌, ◌+◌, ◌≤◌, ◌<◌, ℕ, List, Err, Ok, ◌++◌, length, take};
ghost use Rattle.std.specs.Prelude.{vec_len, IfErr, IfOk, IfSome, OnOk};
ghost use Rattle.std.specs.Io.KnownBytes.{Consumes, IsAtEnd};
ghost use Rattle.std.specs.declared.io.Error.{Error};
ghost use Rattle.pcap_records.specs.FileHeader.{format_of, link_of, number_of};
ghost use Rattle.capture_parts.specs.Outside.{Opened};
ghost use Rattle.capture_parts.specs.Parts.{AreSplit};
ghost use Rattle.capture_parts.specs.Inputs.{Continues, HasStopped, HaveHeld};
ghost use Rattle.capture_parts.specs.code.Counting.{HasStoppedBetween, IsFaultAt, IsOpened, IsUnopened};
ghost use Rattle.capture_parts.specs.code.Dealing.{Deals, EndsSplit};

use crate::fault::{FileFault, SplitFault};
use crate::header::link_type;
use crate::outside::Outside;
use crate::part::Part;
use crate::splitting::{Splitter, read_header};
use pcap_records::{FILE_HEADER, refusal};
use std::io::{Read, Write};

/// Splits a capture that has this file header, which refuses nothing, from behind it on: what is left of its first
/// file, and then the files of these names, which are opened in turn.
///
/// Where the readers tell their bytes, these are the capture's. Each part that is not full then holds exactly its own
/// records, in order, and their numbers; a part's own records tell whether it is full, and by which one. Fails where a
/// file cannot be opened, is refused or ends within a record though another follows, where a read or a write does, and
/// where either is too many ([`SplitFault::TooLong`]).
pub fn split_capture<R: Read, F: Read + Drop, O: Outside<F>, W: Write + Drop>(
    header: &[u8],
    reader: &mut R,
    later: &[String],
    outside: &mut O,
    buffer: Vec<u8>,
    parts: Vec<Part<W>>,
) -> Result<Vec<Part<W>>, FileFault>
    requires header { 24 ≤ length header.now }
    requires buffer { 98 ≤ vec_len buffer }
    requires some { 0 < vec_len parts }
    ensures split { IfOk result (λ split. (given : List ℕ)
        × (behind : List ℕ)
        × Consumes (R.remaining reader.old) (R.remaining reader.new) given
        × IsAtEnd (R.remaining reader.new)
        × HaveHeld O.does F.remaining header.now outside.old later.now behind outside.new
        × IfSome (format_of header.now) (λ format. AreSplit W.contents (number_of format.endian)
        (link_of (number_of format.endian) header.now) (given ++ behind) parts.items split.items)) }
    ensures stopped { IfErr result (HasStopped O.does F.remaining 0 (R.remaining reader.old)
        (R.remaining reader.new) outside.old later.now outside.new) }
{
    let mut splitter = Splitter::behind(header, buffer, parts);
    split_files(&mut splitter, header, reader, later, outside)?;
    Ok(splitter.into_parts())
}

/// Deals all files of a capture that was begun: what is left of the first one, and those of these names.
fn split_files<R: Read, F: Read + Drop, O: Outside<F>, W: Write + Drop>(
    splitter: &mut Splitter<W>,
    header: &[u8],
    reader: &mut R,
    later: &[String],
    outside: &mut O,
) -> Result<(), FileFault>
    requires header { 24 ≤ length header.now }
    ensures split { OnOk result ((given : List ℕ)
        × (behind : List ℕ)
        × Consumes (R.remaining reader.old) (R.remaining reader.new) given
        × IsAtEnd (R.remaining reader.new)
        × HaveHeld O.does F.remaining header.now outside.old later.now behind outside.new
        × EndsSplit W.contents splitter.old.dealing.dealer splitter.old.dealing.parts.items
        splitter.new.dealing.parts.items (given ++ behind)) }
    ensures stopped { IfErr result (HasStopped O.does F.remaining splitter.old.dealing.count (R.remaining reader.old)
        (R.remaining reader.new) outside.old later.now outside.new) }
{
    let Some((last, between)) = later.split_last() else {
        return in_file(0, splitter.finish_file(reader));
    };
    in_file(0, splitter.split_file(reader))?;
    split_between(splitter, header, between, outside)?;
    let mut file = in_file(later.len(), open_later(header, last.as_str(), outside))?;
    in_file(later.len(), splitter.finish_file(&mut file))
}

/// Deals later files of a capture, behind which another one comes.
fn split_between<F: Read + Drop, O: Outside<F>, W: Write + Drop>(
    splitter: &mut Splitter<W>,
    header: &[u8],
    between: &[String],
    outside: &mut O,
) -> Result<(), FileFault>
    requires header { 24 ≤ length header.now }
    ensures held { OnOk result ((given : List ℕ)
        × HaveHeld O.does F.remaining header.now outside.old between.now given outside.new
        × (splitter.new.dealing.count ≡ splitter.old.dealing.count + length given)
        × Deals W.contents splitter.old.dealing.dealer splitter.new.dealing.dealer
        splitter.old.dealing.parts.items splitter.new.dealing.parts.items given) }
    ensures stopped { IfErr result (HasStoppedBetween O.does F.remaining splitter.old.dealing.count
        outside.old between.now outside.new) }
{
    for (index, path) in between.iter().enumerate() {
        let mut file = in_file(index + 1, open_later(header, path.as_str(), outside))?;
        in_file(index + 1, splitter.split_file(&mut file))?;
    }
    Ok(())
}

/// Says in which file a fault is.
fn in_file<T: Drop>(file: usize, found: Result<T, SplitFault>) -> Result<T, FileFault>
    ensures ok { IfOk result (λ value. found ≡ Ok value) }
    ensures err { IfErr result (λ wrong. (wrong.file ≡ file) × (found ≡ Err wrong.fault)) }
{
    match found {
        Ok(value) => Ok(value),
        Err(fault) => Err(FileFault { file, fault }),
    }
}

/// Opens a later file, and reads its header, which has to be like that of the first one.
fn open_later<F: Read + Drop, O: Outside<F>>(
    header: &[u8],
    path: &str,
    outside: &mut O,
) -> Result<F, SplitFault>
    requires header { 24 ≤ length header.now }
    ensures opened { IfOk result (λ file. (opened : F)
        × (own : List ℕ)
        × O.does outside.old (Opened path.now (Ok opened)) outside.new
        × (length own ≡ 24)
        × Continues header.now own
        × Consumes (F.remaining opened) (F.remaining file) own) }
    ensures stopped { IfErr result (λ e. IsUnopened O.does outside.old path.now outside.new e
        ⊎ IsOpened O.does outside.old path.now outside.new e) }
{
    let Ok(mut file) = outside.open(path) else {
        return Err(SplitFault::Open);
    };
    let mut own = [0; FILE_HEADER];
    let count = read_header(&mut file, &mut own)?;
    like_first(&own[..count], header)?;
    Ok(file)
}

/// Fails where a later file with header `own` does not continue a capture that begins with `header`.
fn like_first(own: &[u8], header: &[u8]) -> Result<(), SplitFault>
    requires { 24 ≤ length header.now }
    ensures continues { OnOk result (Continues header.now own.now) }
    ensures long { OnOk result (24 ≤ length own.now) }
    ensures fault { IfErr result (IsFaultAt 0) }
{
    if let Some(fault) = refusal(own) {
        return Err(SplitFault::Refused(fault));
    }
    if own[..4] != header[..4] {
        return Err(SplitFault::AnotherFormat);
    }
    if link_type(own) != link_type(header) {
        return Err(SplitFault::AnotherLinkType);
    }
    Ok(())
}
