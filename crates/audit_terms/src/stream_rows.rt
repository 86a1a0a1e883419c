//! Rows of streams, in the order of identifiers, which is that of openings (RFC 9113, 5.1.1).

ghost use Rattle.std.specs.Prelude.{◌≢◌, IfNone};
ghost use Rattle.std.specs.Bool.{OnTrue};
ghost use Rattle.std.specs.Option.{ForSome};
ghost use Rattle.std.specs.List.{All};
ghost use Rattle.std.specs.List.Sorted.{IsNonDecreasingBy};
ghost use Rattle.audit_terms.specs.code.StreamRows.{IsRowWith};

/// What is kept of one stream.
pub trait OfStream {
    ghost use Rattle.std.specs.Prelude.{◌≡◌, ℕ};

    ghost stream_of: { Self → ℕ };

    /// The stream's identifier.
    fn stream(&self) -> u32
        ensures { result ≡ stream_of self.now };
}

/// The index of a stream's row. Where rows stand in the order of identifiers, `None` says that no row is the stream's;
/// in any other order it says nothing.
///
/// Clients mostly open every odd stream, so a guess finds most rows, and a stream past the guess is mostly a new one.
#[inline]
pub fn row_of<R: OfStream>(rows: &[R], stream: u32) -> Option<usize>
    ensures found { ForSome result (IsRowWith R.stream_of rows.now stream) }
    ensures missed { IfNone result (IsNonDecreasingBy R.stream_of rows.now
        → All (λ row. R.stream_of row ≢ stream) rows.now) }
{
    let Some(first) = rows.first() else {
        return None;
    };
    let guess = stream.wrapping_sub(first.stream()) as usize / 2;
    match rows.get(guess) {
        Some(row) if row.stream() == stream => Some(guess),
        None if is_past(rows, stream) => None,
        _ => search(rows, stream),
    }
}

/// Is a stream past that of the last row?
fn is_past<R: OfStream>(rows: &[R], stream: u32) -> bool
    ensures { OnTrue result (IsNonDecreasingBy R.stream_of rows.now
        → All (λ row. R.stream_of row ≢ stream) rows.now) }
{
    match rows.last() {
        Some(row) => row.stream() < stream,
        None => false,
    }
}

/// The index of a stream's row, by binary search.
fn search<R: OfStream>(rows: &[R], stream: u32) -> Option<usize>
    ensures found { ForSome result (IsRowWith R.stream_of rows.now stream) }
    ensures missed { IfNone result (IsNonDecreasingBy R.stream_of rows.now
        → All (λ row. R.stream_of row ≢ stream) rows.now) }
{
    match rows.binary_search_by_key(&stream, |row| row.stream()) {
        Ok(at) => Some(at),
        Err(_) => None,
    }
}
