//! Linearizability of a history, and the aspects that decide it. `aspects_are_orders` says: a
//! lawful, complete history is linearizable exactly if it is right. Linearizable: each queue has a
//! sequential order, in which its opening tokens come first, then all its calls that ended
//! otherwise than with Spent (refused, without effect); no call stands after one that started after
//! its end, and each reply is a sequential queue's. Right: it has the four aspects, no put that
//! ended with Spent is got, and the opening tokens are got in their order. The aspects are those of
//! Henzinger, Sezgin and Vafeiadis ("Aspect-oriented linearizability proofs", 2013).
//!
//! Calls under way have no place in an order here: of a history that isn't complete `HasOrders`
//! says more than that it is linearizable.
//!
//! It stands on `scq_hist` for histories and their aspects. What an order is stands in
//! `specs/Orders.antt`; the proof constructs one, from the moments at which values may be put and
//! got, in `proofs/`.
#![tactic(auto)]

mod laws;

pub use laws::aspects_are_orders;
