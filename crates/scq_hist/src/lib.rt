//! Histories: lists of start and end events of calls of queues, and five tests that judge one. It
//! stands on `scq_word` for the bytes of a content. The rules are the four violations of Henzinger,
//! Sezgin and Vafeiadis (CONCUR 2013), stated in `specs/Aspects.antt` over the events alone. The
//! layer above uses that each test is the truth of its definition there.
#![tactic(auto)]

mod calls;
mod emptiness;
mod ended;
mod events;
mod freshness;
mod gets;
mod lawful;
mod names;
mod order;
mod tallies;

pub use calls::{call_started, puts_before, under_way};
pub use emptiness::{empty_right, first_wrong_empty};
pub use ended::{EndedPut, nothing_end, put_end};
pub use events::{Call, Event, PutName, Reply};
pub use freshness::{first_unfresh, fresh, is_earlier_put, is_token};
pub use gets::got_name;
pub use lawful::{is_lawful_at, lawful_calls};
pub use names::{first_repeated, once};
pub use order::{first_out_of_order, in_order};
pub use tallies::{Tally, with_put};
