//! Consecutive pieces.

ghost use Rattle.std.specs.Prelude.{◌≡◌, ◌≤◌, ◌<◌, ◌+◌};
ghost use Rattle.pv_pieces.specs.Cut.{nth_piece, start_of};

// The number of items before piece k, where n items are cut into this many pieces.
fn start(n: usize, pieces: usize, k: usize) -> usize
    requires some { 0 < pieces }
    requires within { k ≤ pieces }
    ensures value { result ≡ start_of n pieces k }
    ensures within { result ≤ n }
{
    k * (n / pieces) + k.min(n % pieces)
}

/// From which to which place piece k goes, where n items are cut into this many pieces. It takes no memory.
pub fn bounds(n: usize, pieces: usize, k: usize) -> (usize, usize)
    requires { k < pieces }
    ensures from { result.0 ≡ start_of n pieces k }
    ensures to { result.1 ≡ start_of n pieces (k + 1) }
    ensures order { result.0 ≤ result.1 }
    ensures within { result.1 ≤ n }
{
    (start(n, pieces, k), start(n, pieces, k + 1))
}

/// The items of piece k, where they are cut into this many pieces. It takes no memory.
pub fn piece_of<T>(items: &[T], pieces: usize, k: usize) -> &[T]
    requires { k < pieces }
    ensures { result.now ≡ nth_piece items.now pieces k }
{
    let (from, to) = bounds(items.len(), pieces, k);
    &items[from..to]
}
