//! The SETTINGS that each side sent, and how many of them are acknowledged (RFC 9113, 6.5.3).

ghost use Rattle.std.specs.Prelude.{◌≡◌, ◌++◌, ◌∷◌, [], true, slice_get, IfOk, OnOk};
ghost use Rattle.audit_terms.specs.Side.{other};
ghost use Rattle.audit_terms.specs.Sides.{side_of};
ghost use Rattle.audit_terms.specs.Frame.{is_ack};
ghost use Rattle.audit_terms.specs.InForce.{InForce, initial_in_force};
ghost use Rattle.fault_rules.specs.code.Pending.{IsPending, IsBrought, all_of};

use audit_terms::{Body, Change, Frame, PackedSettings, Settings, Side, Sides, change_by};
use std::alloc::{AllocError, Global};

/// The SETTINGS of a side so far: mostly one, which takes no memory but its place here.
#[derive(Drop)]
struct SentSettings {
    first: Option<PackedSettings>,
    later: Vec<PackedSettings>,
}

impl SentSettings {
    /// None was sent.
    fn new(alloc: Global) -> Self
        ensures { all_of result ≡ [] }
    {
        SentSettings {
            first: None,
            later: Vec::new(alloc),
        }
    }

    /// Adds the next ones.
    fn push(&mut self, settings: PackedSettings) -> Result<(), AllocError>
        ensures { OnOk result (all_of self.new ≡ all_of self.old ++ settings ∷ []) }
    {
        if self.first.is_none() && self.later.is_empty() {
            self.first = Some(settings);
            return Ok(());
        }
        self.later.push(settings)?;
        Ok(())
    }

    /// Those that stand at an index.
    fn get(&self, at: usize) -> Option<PackedSettings>
        ensures { result ≡ slice_get (all_of self.now) at }
    {
        match self.first {
            Some(first) if at == 0 => Some(first),
            Some(_) => self.later.get(at - 1).copied(),
            None => self.later.get(at).copied(),
        }
    }
}

/// The SETTINGS of a connection so far.
#[derive(Drop)]
pub struct Pending {
    /// All that each side sent.
    sent: Sides<SentSettings>,
    /// How many acknowledgements of each side took one of the other side's.
    taken: Sides<usize>,
}

impl Pending {
    /// The SETTINGS before any frame: none.
    pub fn new(alloc: Global) -> Self
        ensures { IsPending initial_in_force result }
    {
        Pending {
            sent: Sides {
                client: SentSettings::new(alloc),
                server: SentSettings::new(alloc),
            },
            taken: Sides::both(0),
        }
    }

    /// What the next acknowledgement of a side takes.
    fn next(&self, side: Side) -> Option<Settings>
        ensures { result ≡ slice_get (all_of (side_of (other side) self.now.sent)) (side_of side self.now.taken) }
    {
        let sent = self.sent.of_ref(side.other());
        match sent.get(self.taken.of(side)) {
            Some(settings) => Some(settings.settings()),
            None => None,
        }
    }

    /// Meets a frame, and returns the change that it brings, if it is an acknowledgement that takes a SETTINGS: the
    /// oldest of the other side that none took.
    ///
    /// # Errors
    ///
    /// Without memory for settings.
    // In line, since it is called for each frame: as a call it took up to a tenth of the instructions of an audit.
    #[inline(always)]
    pub fn meet(&mut self, frame: &Frame) -> Result<Option<Change>, AllocError>
        ensures { IfOk result (λ change. (now : InForce) → IsPending now self.old
            → IsBrought now frame.now change self.new) }
    {
        match frame.body {
            Body::Settings(settings) => {
                self.sent.of_mut(frame.side).push(settings)?;
                Ok(None)
            }
            Body::SettingsAck => Ok(self.take(frame)),
            _ => Ok(None),
        }
    }

    /// What an acknowledgement brings, if it takes a SETTINGS.
    fn take(&mut self, frame: &Frame) -> Option<Change>
        requires { is_ack frame.now.body ≡ true }
        ensures { (now : InForce) → IsPending now self.old → IsBrought now frame.now result self.new }
    {
        let settings = self.next(frame.side)?;
        *self.taken.of_mut(frame.side) += 1;
        Some(change_by(frame, settings))
    }
}
