//! The calls that say each rule of an audit (RFC 9113, 3.4, 4.2, 4.3, 5.1, 6, 8.4): what a frame shows by itself, of
//! its connection and of its streams, and which SETTINGS an acknowledgement brings into force. One call says at once
//! what each frame of a connection shows by itself, on as many threads as it is given workers.
//!
//! - [`say_local`]: what a frame shows by itself and beside the frame of its side just before it; [`keep_last`] keeps
//!   that frame.
//! - [`say_connection`]: what an item shows of its connection, and the connection after it.
//! - [`say_stream`]: what a step shows of a stream, and the stream after it.
//! - [`local_faults`]: what `say_local` says of all frames of a connection.
//! - [`pair`]: what each acknowledgement of a connection brings into force, and which of them answer nothing;
//!   [`Pending`]: the same frame by frame.
//! - The first three give exactly what the definitions of `audit_terms` say of one frame (`local_said`,
//!   `connection_said`, `stream_said`). The plain pass and the rounds call them: both say each rule by the same code,
//!   and differ only in how they walk. Faster paths that only tell that nothing is shown have bodies of their own
//!   (docs/ARCHITECTURE.md). A step with a change has an acknowledgement for its frame (`IsAcknowledged`), so one
//!   thing alone moves a window at a step: content, a grant, or a difference of initial windows. Each is below 2^32, so
//!   credits stay below 2^60 over the fewer than 2^28 frames of a connection, and no sum wraps; that bound is
//!   bookkeeping of code (`Room` of `audit_terms`).
//! - [`local_faults`] returns exactly `local_run` of `audit_terms`, one walk over the frames that knows no shares. The
//!   code divides the frames into a share for each worker, of 4,096 frames at least. All that a share needs of those
//!   before it is the last frame of each side. That is carried from share to share first: a scan back from each share's
//!   end stops at the frame sought, so that no frame is read more than once for each side. The shares' findings are
//!   joined in order, whichever thread ends first.
//! - The acknowledgements of one endpoint answer the SETTINGS frames of the other in the order in which these were
//!   sent (6.5.3). Values count from the acknowledgement, for the frames of the side that acknowledges. [`pair`] gives
//!   one [`Change`] for each acknowledgement that has something to answer, and a finding of kind `UnmatchedAck` for
//!   each that has not: exactly `changes_of` and `settings_run` of `audit_terms`. Only the body of SETTINGS and
//!   acknowledgements counts: on a stream other than 0 they wait and pair all the same.
//! - [`Pending`] keeps the SETTINGS of a connection, which are mostly few, and says what each frame brings
//!   (`change_of`). [`pair`] meets all frames by it, and the quiet pass its frames one by one. [`say_unmatched`] says
//!   of one acknowledgement that it answers nothing.
//! - For callers that use the changes: their numbers rise, and the frame of each is an acknowledgement.
//!   [`worked_examples`] are short runs of the definitions of `pair`: the oldest SETTINGS are taken first, and nothing
//!   that is sent later.
//! - Refused by the prover: settings that count when they are sent.
//! - Tested by whole reports: that the calls succeed where there is memory, [`local_faults`] once over several shares.
//! - Trusted: the port of `rayon`, which starts the threads; that several work at once is not proved.
//!
//! [`Change`]: audit_terms::Change
#![tactic(auto)]

mod connection_rules;
mod frame_faults;
mod pairing;
mod pending_settings;
mod previous;
mod shares;
mod spots;
mod stream_rules;
mod window_rules;
pub mod worked_examples;

pub use connection_rules::say_connection;
pub use frame_faults::{say_local, say_local_after};
pub use pairing::{Pairs, pair, say_unmatched};
pub use pending_settings::Pending;
pub use previous::keep_last;
pub use shares::local_faults;
pub use stream_rules::say_stream;
