//! The roots of two of three methods.

ghost use Rattle.std.specs.Prelude.{◌≡◌, ◌<◌, IfOk, length};
ghost use Rattle.pv_report.specs.Judging.{IsRead};
ghost use Rattle.pv_links.specs.Made.{HasCodeAt, LeastOnPlaces};

use pv_alike::Least;
use pv_class::ClassFile;
use pv_frame::Cause;
use pv_report::{Side, Verdict, least_roots};
use pv_value::Memory;
use std::alloc::Global;

/// Which of two methods is refused, and why.
#[derive(Clone, Copy)]
pub(crate) struct RefusedSide {
    pub(crate) side: Side,
    pub(crate) cause: Cause,
}

/// The least graph of the roots of two methods that have code, each at its place in its class; or which of them is refused.
pub(crate) fn roots_of(
    alloc: Global,
    first: &ClassFile,
    method: usize,
    second: &ClassFile,
    partner: usize,
) -> Result<Result<Least, RefusedSide>, Memory>
    requires first { IsRead first.now }
    requires second { IsRead second.now }
    requires there { method < length first.now.methods }
    requires partner { partner < length second.now.methods }
    requires code { HasCodeAt first.now method }
    requires partner_code { HasCodeAt second.now partner }
    ensures { IfOk result (λ found. LeastOnPlaces first.now method second.now partner found) }
{
    match least_roots(alloc, first, method, second, partner)? {
        Ok(least) => Ok(Ok(least)),
        Err(verdict) => match verdict {
            Verdict::Refused(side, cause) => Ok(Err(RefusedSide { side, cause })),
            _ => unreachable!(),
        },
    }
}
