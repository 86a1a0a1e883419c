ghost use Rattle.std.specs.Prelude.{◌≡◌, List, [], ◌++◌};
ghost use Rattle.conn_scan.specs.code.Summary.{SummaryLaws, summary_of};

/// What some items do to a state, in a form that can be joined: blocks of a list are summed apart, in any order and on
/// any thread, and a state is then moved past whole blocks.
pub trait Summary: Sized {
    type Item;

    type State;

    // What the four functions compute.
    ghost empty: { Self };

    ghost of: { Self.Item → Self };

    ghost join: { Self → Self → Self };

    ghost advance: { Self.State → Self → Self.State };

    // The state after one item: the plain fold that a scan is to equal.
    ghost step: { Self.State → Self.Item → Self.State };

    // For which states and items the calls may be made and the laws hold.
    ghost fits: { Self.State → List Self.Item → Type 0 };

    /// The summary of no items.
    fn empty() -> Self
        ensures { result ≡ empty };

    /// The summary of one item.
    fn of(item: &Self::Item) -> Self
        ensures { result ≡ of item.now };

    /// The summary of the items of `self` and then those of `later`.
    fn join(&self, later: &Self) -> Self
        requires fits { (s : Self.State) × (a : List Self.Item) × (b : List Self.Item) × fits s (a ++ b)
            × (self.now ≡ summary_of empty of join a) × (later.now ≡ summary_of empty of join b) }
        ensures { result ≡ join self.now later.now };

    /// The state after the items of a summary.
    fn advance(state: &Self::State, summary: &Self) -> Self::State
        requires fits { (a : List Self.Item) × fits state.now a × (summary.now ≡ summary_of empty of join a) }
        ensures { result ≡ advance state.now summary.now };

    // What each instance proves.
    ghost laws: { SummaryLaws empty of join advance step fits };
}
