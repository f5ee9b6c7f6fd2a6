//! A method as a flow of blocks, and what each block computes.
//!
//! This layer stands on the layers that find a method's blocks and loops (`pv_frame`, `pv_flow`,
//! `pv_loops`), on `pv_types`, whose facts casts, type tests and stores of references ask for, and on
//! `pv_equations`, whose flows it makes of methods. `specs/Held` says what a block computes of the slots at
//! its beginning: the stack, the locals, the heap and the token, each as a part. `Chains` has the tests and
//! exits of a block by its last instruction, `Blocks` the chain of a block, `Carrying` what a loop may
//! change, `Entries` the slots where a method begins, and `Methods` the flow of a method. `Clean` is what
//! the actions of each program say of themselves. There is no code: a crate that builds the graph of a
//! method builds that of `flow_of`. That the machine does what these definitions say is the law of
//! `pv_outcomes`.
//!
//! The law is the contract of `laws`. `law_flow`: the flow is ranked and finite, so that its equations have
//! one solution. The layers above use it, and the lemmas of `proofs/Cited`: each block has its chain, whose
//! exits are the edges of the flow.
//!
//! To believe an answer `equivalent` nobody has to read these definitions: its statement speaks of the
//! machine alone. They are what must be believed of the lines `unknown ..` of a report.
#![tactic(auto)]

pub mod laws;
