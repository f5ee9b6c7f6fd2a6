//! Worked examples of flows: what the definitions of `pv_equations`, `pv_conversion` and `pv_runs` say of small ones.
//!
//! There is no code, and nothing stands on this crate: it shows that the definitions mean what they are to mean. `proofs/Flows` writes
//! small flows, and `Tests`, `Places`, `Evaluate` and `Shapes` have the checker compute what solves their equations. `Examples` has the solutions
//! and the roots of eight flows, with and without loops, and `ExampleRuns` the runs with which these roots agree (`Typed`, `Running`).
//! `Methods` has the chains of blocks of short methods, and what their loops carry.
#![tactic(auto)]
