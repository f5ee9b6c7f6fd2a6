//! Drawings of graphs with two roots: as a listing, and as Graphviz text.
//!
//! This layer stands on `pv_graph`, whose graphs it draws, on `pv_cert`, which spells operations, and on `pv_token` for
//! numbers. `specs/` says what a listing is (`Listings`): a line for each node, with its number, its operation and its
//! kids as the `node` step of a certificate spells them, and a line with the roots; and what the Graphviz text is
//! (`Dots`): a node with a label for each node, and an edge for each kid.
//!
//! The layer above uses the clauses of `write_listing` and `write_dot`: the text is the definition's (`listing_of`, `dot_of`). Out of
//! memory is the one error. Steps of a certificate name the nodes of the least graph of two methods' roots by the
//! numbers that its drawing has, and the nodes that they add by later ones. `Alone` is private to this crate.
#![tactic(auto)]

mod dot;
mod listing;
mod spelling;

pub use dot::write_dot;
pub use listing::write_listing;
