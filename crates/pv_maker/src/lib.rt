//! Classes of random methods.
//!
//! This layer stands on `pv_listing`, which has the lines of listings, and on `pv_asm`, which makes the class of lines. `specs/Draws` has the
//! generator of random numbers, `specs/Methods` the lines of the methods that its draws give, each with a twin that adds in the other
//! order, and `specs/Classes` says which bytes their class has (`IsMade`). `listing` gives exactly these lines, and `generate` exactly these bytes:
//! the same for one seed, one number of methods and one choice of twins. The layer above places them. `law_made` says that each line
//! has a reading where it stands, so that want of memory is the one error.
#![tactic(auto)]

mod class;
mod draws;
mod laws;
mod methods;

pub use class::{MOST_MADE, generate};
pub use laws::law_made;
pub use methods::listing;
