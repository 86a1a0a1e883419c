ghost use Rattle.std.specs.Prelude.{◌≡◌, [], Err, IfErr, IfOk, Ok};
ghost use Rattle.input_output.specs.Account.{IsUnread};
ghost use Rattle.input_output.specs.code.Reading as accounted;
ghost use Rattle.h2audit.specs.code.Met.{HasMetPackets};
ghost use Rattle.h2audit.specs.code.Reading.{HasMetCapture, IsReadingFault};
ghost use Rattle.h2audit.specs.declared.reading.FileHeader.TheVariants as header;

use crate::fault::AuditFault;
use crate::met_captures::MetCapture;
use input_output::{CaptureReader, ReadFault, TableHash, keep_up_to, pass_over, walk_and_let_go};
use packet_heads::PacketWalk;
use pcap_records::{FILE_HEADER, PcapFault};
use std::alloc::Global;
use std::io::Read;
use tcp_streams::ConnectionVisitor;

/// What the file header of a capture gives.
#[derive(Drop)]
pub(crate) enum FileHeader<W> {
    /// It is taken: the walk has taken in what was read so far.
    Taken(W),
    /// Why it is refused.
    Refused(PcapFault),
}

/// Reads to the end, or until there are 2^31 bytes, and has what comes met by a walk: of the bytes nothing is kept but
/// the file header. Returns the refusal of that, or the walk.
pub(crate) fn read_and_let_go<R: Read, V: ConnectionVisitor>(
    alloc: Global,
    hash: TableHash,
    reader: &mut CaptureReader<R>,
) -> Result<FileHeader<PacketWalk<MetCapture<V>>>, AuditFault>
    requires { IsUnread reader.old }
    ensures read { IfOk result (HasMetCapture V.after (R.remaining reader.old.source.reader) reader.new) }
    ensures err { IfErr result (λ e. IsReadingFault e reader.new) }
{
    match meet(alloc, MetCapture::new(alloc, hash), reader) {
        Ok(read) => Ok(read),
        Err(ReadFault::Failed(_)) => Err(AuditFault::Read),
        Err(ReadFault::OutOfMemory) => Err(AuditFault::OutOfMemory),
    }
}

/// Reads a capture whose packets are met as they come, and returns what its file header gives.
fn meet<R: Read, V: ConnectionVisitor>(
    alloc: Global,
    met: MetCapture<V>,
    reader: &mut CaptureReader<R>,
) -> Result<FileHeader<PacketWalk<MetCapture<V>>>, ReadFault>
    requires unread { IsUnread reader.old }
    requires none { HasMetPackets V.after [] met }
    ensures read { IfOk result (HasMetCapture V.after (R.remaining reader.old.source.reader) reader.new) }
    ensures err { IfErr result (λ e. accounted.IsReadingFault e reader.new) }
{
    keep_up_to(reader, FILE_HEADER)?;
    let begun = PacketWalk::begin(alloc, reader.kept(), met);
    if reader.has_ended() {
        return Ok(header_by(begun));
    }
    match begun {
        Ok(mut walk) => {
            let read = walk_and_let_go(alloc, reader, &mut walk);
            behind_read(read, FileHeader::Taken(walk))
        }
        Err(refusal) => behind_read(pass_over(reader), FileHeader::Refused(refusal)),
    }
}

/// What the file header gives, where all behind it was read.
fn behind_read<W: Drop>(
    read: Result<(), ReadFault>,
    header: FileHeader<W>,
) -> Result<FileHeader<W>, ReadFault>
    ensures ok { IfOk result (λ given. (read ≡ Ok tt) × (given ≡ header)) }
    ensures err { IfErr result (λ e. read ≡ Err e) }
{
    read?;
    Ok(header)
}

/// The walk or the refusal that the beginning of a capture gives.
fn header_by<W>(begun: Result<W, PcapFault>) -> FileHeader<W>
    ensures taken { IfOk begun (λ walk. result ≡ header.Taken walk) }
    ensures refused { IfErr begun (λ e. result ≡ header.Refused e) }
{
    match begun {
        Ok(walk) => FileHeader::Taken(walk),
        Err(refusal) => FileHeader::Refused(refusal),
    }
}
