//! Input and output: the calls of a reader and of a writer, what the reads of a capture gave, and the random keys of
//! hash tables. Nothing here knows the pcap format.
//!
//! - The calls are a list that only proofs see, each with its answer (`specs/Calls.antt`); it takes no memory. Only the
//!   short functions of `traced_reader` and `report_writer` write it, where they make the call. This holds for every
//!   reader and writer, also for files and pipes, whose types do not tell their bytes. Where they do, clauses say that
//!   these are the bytes of the list. What the list tells of a capture and of a report is in `specs/Account.antt`.
//! - A [`FailedRead`] and a [`WriteFault`] are made beside the call that failed, and nowhere else.
//! - A [`CaptureReader`] keeps what the reads gave, or how much it was. A [`ReportWriter`] writes and flushes.
//! - [`keep_up_to`] reads and keeps the bytes; [`pass_over`] reads and keeps only their number, and so does
//!   [`walk_and_let_go`], which feeds them to a [`FrontWalk`] without knowing its purpose. Reading stops at 2^31 bytes
//!   ([`LIMIT`]). A walk needs no byte twice, and none that was kept.
//! - A [`TableHash`] hashes by SipHash with a key drawn at each start; it cannot be made in another way. No answer of a
//!   table depends on the key, and no contract names it (docs/DECISIONS.md, "Program and repository").
//! - The prover refuses: a read that reports a full buffer, or that is told as failed though it gave bytes, a reading
//!   that ends at half of its limit, or past 1 GiB where bytes are let go, a call that no list has. The compiler
//!   refuses a fault that another module makes.
//! - `crate_tests` tests which calls readers and writers get.
//! - Trusted: that a file or a pipe gives its bytes, and that the functions that write the list of calls are honest
//!   (docs/PROOFS.md, "What is trusted").
#![tactic(auto)]

mod calls;
mod capture_reader;
mod fault;
mod front;
mod kept_bytes;
mod reading;
mod report_writer;
mod table_hash;
mod traced_reader;

pub use capture_reader::{CaptureReader, LIMIT, ReadState};
pub use fault::ReadFault;
pub use front::{FrontWalk, feed_rest};
pub use reading::{keep_up_to, pass_over, walk_and_let_go};
pub use report_writer::{ReportWriter, WriteFault};
pub use table_hash::TableHash;
pub use traced_reader::{FailedRead, TracedReader};
