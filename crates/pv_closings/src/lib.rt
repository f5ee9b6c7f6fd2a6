//! The classes that `induct` leaves are those of a height. There is no code here but functions that state laws.
//!
//! This layer stands on `pv_classes` and `pv_induct`, whose definition of what may be joined is over a list of nodes (`Joined` of
//! `pv_induct/specs/Joined`), and on `pv_heights`, whose definition is over the nodes of a graph as things (`Joined` of
//! `pv_heights/specs/Systems`). The proofs show that both join the same nodes, with any open inductions (`proofs/Same`).
//!
//! The layer above uses the laws (`specs/Closings`). What `induct` leaves is what is joined over the classes that were, as a round
//! of a search asks for (`AreJoined`); where each node had a class of its own, it is what is joined where nothing is given, as the
//! beginning of a search asks for; and it is a congruence on the nodes (`IsCongruence`), as witnesses and matches ask for.
#![tactic(auto)]

pub mod laws;
