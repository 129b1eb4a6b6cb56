//! The calls of C: a port by an opaque handle, and a number for each answer. Each export calls
//! `scq_port` and states its clauses again, in the words of `specs/Answers`. What C has to uphold
//! stands at the head of `scq.h`. Five functions of `handle` and `loose` take a box apart to its
//! pointer and put it together again; all else is safe code. These five are proved by hand, and
//! such a proof may give a ghost another value. So a reader checks that there is no sixth, that
//! `End` has the `Ended` of `scq_port`, and that `specs/Handles` says that a handle owns a `Port`.
#![tactic(auto)]

mod answers;
mod c_port;
mod exports;
mod handle;
mod loose;
mod many;
mod opening;
mod over;
mod tally;
