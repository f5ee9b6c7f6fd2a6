//! The numbers that are drawn.

ghost use Rattle.std.specs.Prelude.{◌≡◌};
ghost use Rattle.pv_maker.specs.Draws.{next, draw_from};

/// Knuth's multiplier for 64 bits, and the increment that goes with it.
const MULTIPLIER: u64 = 6364136223846793005;

const INCREMENT: u64 = 1442695040888963407;

/// How many of the low bits don't tell a number, since they repeat soon.
const LOW_BITS: u32 = 33;

/// The shapes of methods, and the constants in them.
const SHAPES: u64 = 3;

const CONSTANTS: u64 = 100;

/// The shape of a method of two parameters.
#[derive(Clone, Copy, Debug, PartialEq, Eq)]
pub(crate) enum Shape {
    /// It adds once.
    Sum,
    /// It adds in a loop.
    Loop,
    /// It adds in a loop within a loop.
    Nested,
}

/// What a method is made of.
#[derive(Clone, Copy, Debug, PartialEq, Eq)]
pub(crate) struct Draw {
    pub shape: Shape,
    pub constant: u8,
}

/// The next state of the generator.
fn next(state: u64) -> u64
    ensures { result ≡ next state }
{
    state.wrapping_mul(MULTIPLIER).wrapping_add(INCREMENT)
}

/// The shape and the constant of the next method, and the state after them.
pub(crate) fn next_draw(state: u64) -> (Draw, u64)
    ensures draw { result.0 ≡ draw_from state }
    ensures after { result.1 ≡ next (next state) }
{
    let first = next(state);
    let second = next(first);
    let shape = match (first >> LOW_BITS) % SHAPES {
        0 => Shape::Sum,
        1 => Shape::Loop,
        _ => Shape::Nested,
    };
    let constant = ((second >> LOW_BITS) % CONSTANTS) as u8;
    (Draw { shape, constant }, second)
}
