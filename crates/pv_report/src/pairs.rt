//! What is found of the methods of two files, in pieces at once.

ghost use Rattle.std.specs.Prelude.{◌≤◌, ◌<◌, ℕ, List, length, IfOk};
ghost use Rattle.pv_class.specs.declared.file.Method.{Method};
ghost use Rattle.pv_pieces.specs.Cut.{between, joined, nth_piece};
ghost use Rattle.pv_report.specs.declared.pair.Pair.{Pair};
ghost use Rattle.pv_report.specs.declared.verdict.Means.{Means};
ghost use Rattle.pv_report.specs.Judging.{IsReadPair};
ghost use Rattle.pv_report.specs.Pieces.{AreJudged, AreParts};

use crate::judged::Judgements;
use crate::pair::Pair;
use crate::verdict::{Means, Piece, Table, is_pair, judgement_on};
use pv_base::Gate;
use pv_pieces::{Workers, bounds};
use pv_value::Memory;
use std::alloc::Global;
use std::thread;
use std::thread::Threads;

// What is found of the methods from one place of the first class up to another, in their order.
fn judge_from<R: Threads + Sync, G: Gate>(
    piece: &Piece<R, G>,
    alloc: Global,
    means: Means,
    pair: &Pair,
    from: usize,
    to: usize,
) -> Result<Judgements, Memory>
    requires read { IsReadPair pair.now }
    requires order { from ≤ to }
    requires within { to ≤ length pair.now.first.methods }
    ensures { IfOk result (AreJudged means pair.now (between pair.now.first.methods from to)) }
{
    let methods = pair.first.methods.as_slice();
    let mut table = Table::new();
    let mut judgements = Judgements::new(alloc);
    for place in from..to {
        let found = judgement_on(piece, alloc, means, &mut table, pair, place)?;
        judgements.push(&methods[place], found)?;
    }
    Ok(judgements)
}

// What is found of the methods of a piece, where they are cut into this many.
fn judge_piece<R: Threads + Sync, G: Gate>(
    piece: &Piece<R, G>,
    alloc: Global,
    means: Means,
    pair: &Pair,
    count: usize,
) -> Result<Judgements, Memory>
    requires read { IsReadPair pair.now }
    requires within { piece.now.number < count }
    ensures { IfOk result (AreJudged means pair.now (nth_piece pair.now.first.methods count piece.now.number)) }
{
    let (from, to) = bounds(pair.first.methods.as_slice().len(), count, piece.number);
    judge_from(piece, alloc, means, pair, from, to)
}

// What is found of all methods, where each part is what is found of those of the piece of its number.
fn put_together(alloc: Global, parts: Vec<Result<Judgements, Memory>>) -> Result<Judgements, Memory>
    ensures { (means : Means) (pair : Pair) (methods : ℕ → List Method) → AreParts means pair methods parts.items → IfOk result (AreJudged means pair (joined methods (length parts.items))) }
{
    let mut all = Judgements::new(alloc);
    for part in parts {
        all.append(part?)?;
    }
    Ok(all)
}

// How many methods of the first class have a partner, both with a code. It says how the work is cut, and no answer.
fn count_pairs(pair: &Pair) -> Result<usize, Memory>
    requires { IsReadPair pair.now }
    ensures { IfOk result (λ n. n ≤ length pair.now.first.methods) }
{
    let mut count = 0;
    for place in 0..pair.first.methods.as_slice().len() {
        if is_pair(pair, place)? {
            count += 1;
        }
    }
    Ok(count)
}

/// What is found of the methods of the first class, in their order. Where as many of them have partners as there are workers, the
/// methods are cut into pieces that run at once. Else they are one piece, and the search for each has the workers.
pub(crate) fn judge_all<R: Threads + Sync, G: Gate>(
    workers: &Workers<R, G>,
    alloc: Global,
    means: Means,
    pair: &Pair,
) -> Result<Judgements, Memory>
    requires read { IsReadPair pair.now }
    ensures { IfOk result (AreJudged means pair.now pair.now.first.methods) }
{
    let count = workers.count();
    if count_pairs(pair)? < count {
        let piece = Piece::new(0, workers);
        return judge_piece(&piece, alloc, means, pair, 1);
    }
    let inside = workers.alone();
    let parts = thread::map_indices(
        workers.rt,
        alloc,
        count,
        &|k| -> Result<Judgements, Memory>
            requires { (k < count) × IsReadPair pair.now }
            ensures { IfOk result (AreJudged means pair.entry.now (nth_piece pair.entry.now.first.methods count k)) }
        {
            let piece = Piece::new(k, &inside);
            judge_piece(&piece, alloc, means, pair, count)
        },
    )?;
    put_together(alloc, parts)
}
