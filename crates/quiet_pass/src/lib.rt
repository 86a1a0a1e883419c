//! A machine that meets a connection's frames one by one, in capture order, and keeps none: of those at which something
//! is shown, each finding has the record and the time. [`found_in`] has it meet a list of frames, and returns their
//! number, how many bytes are left over, and the findings ([`FoundConnection`]). A connection of which nothing is shown
//! is a [`QuietConnection`]. [`one_pass`] gives all that the machine says of a list.
//!
//! - The machine follows the pass of `audit_terms`, which steps from state to state. What it has said of the frames so
//!   far is what is shown of them, and it stands for the state after them (`IsFoundAfter`). Most frames are met
//!   quietly: only credits are said at them (`IsQuietStep`), and of SETTINGS and acknowledgements nothing, while no
//!   window of a stream is moved (`IsStillMet`).
//! - At others it takes the connection and the streams that meet the frame as they stand, has `fault_rules` say what
//!   the frame shows, and puts them back, whatever credit is left, and whether or not the streams are opened. So it
//!   does with all streams at a change of the initial windows. Past a connection error nothing more is met, only
//!   counted. `found_in` meets a front of a list. It meets the rest if the audit stopped there, and else for as long as
//!   nothing is found. Where it has no answer, frames are more than a caller allows, and something is shown.
//! - Where credits are shown ([`Showing`]), no frame is met quietly, and a change shows the credit of each live window
//!   that it moves: of a row that it leaves as it is, nothing.
//! - A row holds no credit of -(2^31 - 1) or below, for which no capture has the bytes, and no stream that is opened
//!   out of order, before which the audit of a capture stops. From the first stream on that no row holds, all stand in
//!   full in a plain list (`whole_streams`), and no frame is met quietly. Before that, what fails leaves all as it was.
//! - [`ConnectionFindings`] does this while segments come: the machine visits the frames that `h2_frames` hands on, and
//!   keeps of a connection what it and that stage keep. At the end it answers what `found_in` does of all frames of
//!   the flows that these segments have (`IsFoundOf`), and where the flows end. It is a
//!   `tcp_streams::ConnectionVisitor`, so that a stage goes over the packets of a capture, as they come. There is no
//!   list of flows or frames.
//! - Streams are gone through in the order of rows, and the definitions say in that of their first frames. Findings are
//!   put in order by place, so the order makes no difference, nor do streams of which nothing is shown.
//! - It keeps of each side's last frame whether a field block goes on after it, and of which stream.
//! - It keeps SETTINGS until the end (`fault_rules::Pending`): connections have few. A change that moves an initial
//!   window updates all streams (RFC 9113, 6.9.2). Past 64 updates for each frame so far, rows hold credits less a
//!   shift (`shift_ranges`), so that a change moves the shift, and no row. What it shows is found by groups of rows
//!   (`row_groups`): of each the shifts are kept between any two of which nothing is shown of its rows. Where a row is
//!   put, what is known of its groups is forgotten. A change goes through the groups alone of which too little is known
//!   or something may be shown: some 200 steps for each row that was put since, and for each finding, and one for each
//!   2^18 rows. A change that moves none costs nothing.
//! - An opened stream has a row: how each side stands is one number. Where a live window has no credit left, the row
//!   holds that too, and is marked, so that its frames are not met quietly. The client opens odd streams in rising
//!   order, and the server promises even ones likewise (5.1.1): a guess finds a row, else a binary search. A frame that
//!   opens a stream not past all before it is not quiet, nor any use of one that is not opened. PRIORITY and frames of
//!   unknown types do nothing to such a stream.
//! - One rule updates a row for frames of all types, ends and resets too. While rows are shifted, `fault_rules` says
//!   what frames on streams show, quiet ones too.
//! - Frames take no memory, but for a new stream, SETTINGS and what is shown. No sum wraps, and nothing is asked of the
//!   caller: credits are counted in 64 bits, and as frames are in order there are fewer than 2^28, of which each moves
//!   a credit by 2^32 at most (`MovesLittle`, `HasRoomLeft`).
//! - Refused by the prover: content of a reset stream that the connection does not count (5.1); exchanged tails; an
//!   audit that stops only if all findings of a frame end it; frames on a stalled stream that show nothing; a promise
//!   that shows nothing of the promised stream; a first frame that a stage does not meet; frames met quietly
//!   where credits are shown; no answer for just as many frames as are allowed.
//! - Tested, in `threads_test.py`: that connections of which nothing is shown go through no round but the first, and
//!   that [`found_in`] tells a connection error without another. By whole reports: that both ways succeed where there
//!   is memory. In `crate_tests`, over segments in disorder: that [`found_in`] and a stage of [`ConnectionFindings`]
//!   tell the same of random connections. Only measured: how long changes take.
#![tactic(auto)]

mod all_streams;
mod connection_findings;
mod found_connections;
mod found_passes;
mod found_visitor;
mod held_streams;
mod kept_connection;
mod kept_streams;
mod opened_rows;
mod passes;
mod plain_pass;
mod quiet_connections;
mod quiet_frames;
mod row_groups;
mod said_frames;
mod said_settings;
mod shift_ranges;
mod shifted_rows;
mod showing;
mod whole_streams;

pub use connection_findings::{ConnectionFindings, FoundFlows};
pub use found_connections::{FoundConnection, found_in};
pub use found_visitor::FoundCut;
pub use plain_pass::one_pass;
pub use quiet_connections::QuietConnection;
pub use showing::{Showing, WithCredits, WithoutCredits};
