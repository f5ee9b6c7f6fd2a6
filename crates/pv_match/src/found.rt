//! Matches, as a search has them.

ghost use Rattle.std.specs.Prelude.{◌≡◌, IfOk, refl};
ghost use Rattle.std.specs.Cmp.{po};
ghost use Rattle.std.specs.Cmp.Lexicographic.{slice_cmp};
ghost use Rattle.std.specs.Ordering.{as_partial_cmp};
ghost use Rattle.pv_match.specs.Orders.{AreOne, match_cmp};
ghost use Rattle.pv_match.specs.OrderLaws.{matches_tied, matches_total};

use pv_value::{Kind, Memory, Sym};
use std::alloc::Global;
use std::cmp::Ordering;

/// A parameter of a match: a depth, a symbol, a kind of elements or a constant. They compare by variant, and then by content.
#[derive(Debug, Drop, PartialEq, Eq, PartialOrd, Ord)]
pub enum Param {
    Depth(u32),
    Symbol(Sym),
    Kind(Kind),
    Int(i32),
    Long(i64),
}

impl Param {
    // An equal parameter.
    fn copy(&self) -> Result<Param, Memory>
        ensures { IfOk result (λ copy. copy ≡ self.now) }
    {
        Ok(match self {
            Param::Depth(d) => Param::Depth(*d),
            Param::Symbol(sym) => Param::Symbol(sym.clone()?),
            Param::Kind(kind) => Param::Kind(*kind),
            Param::Int(c) => Param::Int(*c),
            Param::Long(c) => Param::Long(*c),
        })
    }
}

// Equal parameters.
fn copy_params(alloc: Global, params: &[Param]) -> Result<Vec<Param>, Memory>
    ensures { IfOk result (λ copies. copies.items ≡ params.now) }
{
    let mut copies = Vec::new(alloc);
    for param in params {
        copies.push(param.copy()?)?;
    }
    Ok(copies)
}

/// A match: the number of its axiom, its parameters in the order in which the left side names them, and the number of a class,
/// which is its least node, for each kid of its family and for each variable. They compare by axiom, then by parameters, and then by classes.
#[derive(Debug, Drop, PartialEq, Eq)]
pub struct Match {
    pub axiom: u32,
    pub params: Vec<Param>,
    pub classes: Vec<u32>,
}

impl Match {
    /// An equal match.
    pub fn copy(&self, alloc: Global) -> Result<Match, Memory>
        ensures { IfOk result (λ copy. AreOne copy self.now) }
    {
        Ok(Match {
            axiom: self.axiom,
            params: copy_params(alloc, &self.params)?,
            classes: Vec::from_slice(alloc, &self.classes)?,
        })
    }
}

// The order of two lists: that of their first elements that differ, and else that of their lengths. The lists of a match are short, so that a
// loop over their elements takes less than the comparison of slices, which begins with groups of them.
fn order_of<T: Ord>(first: &[T], second: &[T]) -> Ordering
    ensures { result ≡ slice_cmp T.cmp first.now second.now }
{
    let (mut xs, mut ys) = (first, second);
    while let [x, more @ ..] = xs {
        let [y, others @ ..] = ys else {
            return Ordering::Greater;
        };
        let found = x.cmp(y);
        if found.is_ne() {
            return found;
        }
        xs = more;
        ys = others;
    }
    if ys.is_empty() {
        Ordering::Equal
    } else {
        Ordering::Less
    }
}

impl Ord for Match {
    ghost cmp = { match_cmp };

    ghost total = { matches_total };

    ghost matches_partial_cmp = { λ x y. refl };

    ghost matches_eq = { matches_tied };

    fn cmp(&self, other: &Match) -> Ordering {
        let by_axiom = self.axiom.cmp(&other.axiom);
        if by_axiom.is_ne() {
            return by_axiom;
        }
        let by_params = order_of(&self.params, &other.params);
        if by_params.is_ne() {
            return by_params;
        }
        order_of(&self.classes, &other.classes)
    }
}

impl PartialOrd for Match {
    ghost partial_cmp = { as_partial_cmp match_cmp };

    ghost laws = { po matches_total matches_tied };

    fn partial_cmp(&self, other: &Match) -> Option<Ordering> {
        Some(self.cmp(other))
    }
}

/// All matches in their order, or how many more than the limit there are at least.
#[derive(Debug, Drop)]
pub enum Matches {
    All(Vec<Match>),
    More(usize),
}
