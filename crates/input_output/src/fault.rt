use crate::traced_reader::FailedRead;

/// Why the bytes of a capture were not read to their end.
#[derive(Clone, Copy)]
pub enum ReadFault {
    /// A read failed.
    Failed(FailedRead),
    /// Memory ran out, for the bytes or for a walk over them.
    OutOfMemory,
}
