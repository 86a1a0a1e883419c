ghost use Rattle.std.specs.Prelude.{◌≡◌, ◌+◌, ◌<◌, [], IfOk, List, OnOk};
ghost use Rattle.tcp_streams.specs.Membership.{is_request};

use crate::members::Stray;
use crate::pair::Pair;
use crate::standings::{Standing, Standings};
use input_output::TableHash;
use packet_heads::{Endpoint, Segment};
use std::alloc::{AllocError, Global};

/// What the next segment does.
#[derive(Clone, Copy)]
pub(crate) enum Turn {
    /// It opens a connection.
    Opens,
    /// It belongs to the connection at this index.
    Joins(usize),
    /// It is one more stray of the pair at this index.
    Counts(usize),
    /// It is the first stray of its pair.
    Begins,
}

/// Who opened a connection, and with which sequence number.
#[derive(Clone, Copy)]
pub(crate) struct Opener {
    pub client: Endpoint,
    pub number: u32,
}

/// Is it a SYN without ACK?
fn is_request(segment: &Segment) -> bool
    ensures { result ≡ is_request segment.now }
{
    segment.syn && !segment.ack
}

impl Opener {
    ghost use Rattle.tcp_streams.specs.code.Past.{is_again};

    /// Does the segment say again what the opening said?
    fn is_repeated_by(&self, segment: &Segment) -> bool
        ensures { result ≡ is_again segment.now self.now.client self.now.number }
    {
        segment.from == self.client && segment.seq == self.number
    }
}

/// The openings and the strays of the segments seen so far: it says of each segment which connection it belongs to,
/// whatever is kept of that.
#[derive(Drop)]
pub(crate) struct Table {
    pub standings: Standings,
    pub openers: Vec<Opener>,
    pub strays: Vec<Stray>,
}

impl Table {
    ghost use Rattle.packet_heads.specs.declared.packets.Segment.{Segment as Shown};
    ghost use Rattle.std.specs.Prelude.{◌∷◌, ◌++◌, length};
    ghost use Rattle.packet_heads.specs.declared.packets.Packet.{Packet};
    ghost use Rattle.tcp_streams.specs.Membership.{strays_of};
    ghost use Rattle.tcp_streams.specs.code.Past.{past_of};
    ghost use Rattle.tcp_streams.specs.code.Pairs.{pair_of};
    ghost use Rattle.tcp_streams.specs.code.Table.{HasPast, IsTableOf, IsTurn, first_stray, opener_of};
    ghost use Rattle.tcp_streams.specs.code.Standings.{SetsStanding, standing_of};
    ghost use Rattle.tcp_streams.specs.declared.standings.Standing.TheVariants.{Opened, Unopened};

    pub fn new(alloc: Global, hash: TableHash) -> Table
        ensures { IsTableOf [] result }
    {
        Table {
            standings: Standings::new(alloc, hash),
            openers: Vec::new(alloc),
            strays: Vec::new(alloc),
        }
    }

    /// Takes in the next segment, and says what it does.
    pub fn add(&mut self, segment: &Segment) -> Result<Turn, AllocError>
        requires { HasPast self.old }
        ensures turn { (past : List Shown) → IsTableOf past self.old → IfOk result (IsTurn past segment.now) }
        ensures table { OnOk result ((past : List Shown) → IsTableOf past self.old
            → IsTableOf (segment.now ∷ past) self.new) }
    {
        let standing = self.standings.find(&Pair::of(segment));
        let turn = self.turn(segment, standing);
        self.take(segment, turn)?;
        Ok(turn)
    }

    /// Takes in the next segment, which does this.
    fn take(&mut self, segment: &Segment, turn: Turn) -> Result<(), AllocError>
        requires past { HasPast self.old }
        requires turn { (past : List Shown) → IsTableOf past self.old → IsTurn past segment.now turn }
        ensures { OnOk result ((past : List Shown) → IsTableOf past self.old
            → IsTableOf (segment.now ∷ past) self.new) }
    {
        match turn {
            Turn::Opens => self.open(segment),
            Turn::Joins(_) => Ok(()),
            Turn::Counts(k) => {
                self.strays[k].segments += 1;
                Ok(())
            }
            Turn::Begins => self.begin(segment),
        }
    }

    /// What the next segment does, whose pair stands so.
    fn turn(&self, segment: &Segment, standing: Option<Standing>) -> Turn
        requires past { HasPast self.now }
        requires standing { standing ≡ standing_of self.now.standings (pair_of segment.now) }
        ensures { (past : List Shown) → IsTableOf past self.now → IsTurn past segment.now result }
    {
        match standing {
            None => {
                if is_request(segment) {
                    Turn::Opens
                } else {
                    Turn::Begins
                }
            }
            Some(known) => match known {
                Standing::Unopened(k) => {
                    if is_request(segment) {
                        Turn::Opens
                    } else {
                        Turn::Counts(k)
                    }
                }
                Standing::Opened(k) => {
                    if is_request(segment) && !self.openers[k].is_repeated_by(segment) {
                        Turn::Opens
                    } else {
                        Turn::Joins(k)
                    }
                }
            },
        }
    }

    /// Takes in a segment that opens a connection.
    fn open(&mut self, segment: &Segment) -> Result<(), AllocError>
        ensures openers { OnOk result (self.new.openers.items ≡ self.old.openers.items ++ opener_of segment.now ∷ []) }
        ensures strays { OnOk result (self.new.strays.items ≡ self.old.strays.items) }
        ensures standings { OnOk result
            (SetsStanding (pair_of segment.now) (Opened (length self.old.openers.items))
            self.old.standings self.new.standings) }
    {
        let index = self.opener_count();
        self.openers.push(Opener {
            client: segment.from,
            number: segment.seq,
        })?;
        self.standings
            .set(Pair::of(segment), Standing::Opened(index))
    }

    /// Takes in the first stray of its pair.
    fn begin(&mut self, segment: &Segment) -> Result<(), AllocError>
        ensures openers { OnOk result (self.new.openers.items ≡ self.old.openers.items) }
        ensures strays { OnOk result (self.new.strays.items ≡ self.old.strays.items ++ first_stray segment.now ∷ []) }
        ensures standings { OnOk result
            (SetsStanding (pair_of segment.now) (Unopened (length self.old.strays.items))
            self.old.standings self.new.standings) }
    {
        let index = self.stray_count();
        self.strays.push(Stray {
            from: segment.from,
            to: segment.to,
            segments: 1,
        })?;
        self.standings
            .set(Pair::of(segment), Standing::Unopened(index))
    }

    /// The strays of the packets that it has taken in.
    pub fn into_strays(self) -> Vec<Stray>
        ensures { (packets : List Packet) → IsTableOf (past_of packets) self → result.items ≡ strays_of packets }
    {
        self.strays
    }

    fn opener_count(&self) -> usize
        ensures { result ≡ length self.now.openers.items }
    {
        self.openers.len()
    }

    fn stray_count(&self) -> usize
        ensures { result ≡ length self.now.strays.items }
    {
        self.strays.len()
    }
}
