//! A port: a pass together with its queue and the values that the pass holds, as one value that
//! needs nothing from outside. It stands on `scq_queue`, and each of its calls tests when it is
//! made what a caller of `scq_queue` proves: that the topic is there, that the value is held, that
//! there is room for one more. Values are named by the index of their buffer. What a port is seen
//! as and what each call makes of it stands in `specs/Ports` and `specs/Calls`. A port that closes
//! leaves its pass, with what it couldn't give back, where the last one finds it, in a table of
//! `ends`. The last port of a queue closes the queue with the passes of all ports, and is told what
//! `Queue::close` says of them (`specs/Closed`); `ended` has that for contracts, with no type
//! parameter. The layer above is `scq_c`, which gives ports to C.
#![tactic(auto)]

mod crossing;
mod ended;
mod ends;
mod hand;
mod holding;
mod leaving;
mod letting_go;
mod marks;
mod opening;
mod owner;
mod port;
mod port_buffer;
mod refusals;
mod retiring;

pub use crossing::port_crosses;
pub use ended::Ended;
pub use opening::open;
pub use owner::Owner;
pub use port::Port;
pub use port_buffer::PortBuffer;
pub use refusals::{GiveBackRefusal, LendRefusal, SendRefusal, TakeRefusal};
