//! Workers at their desks, whatever a worker is. A worker sits at a desk with its files, and keeps
//! there the value that came back where it met a ticket past the queue's limit. Room is taken
//! before there is a queue (`make_room`), then each new pass gets a worker and each worker its
//! files (`lay_out`), and once all have done their work the files are gathered, the desks cleared,
//! the queue closed and its block merged (`wind_up_desks`). `End` is what then comes back. What a
//! worker does at its desk, and the threads in which it does it, are the layers' above.
#![tactic(auto)]

mod clearing;
mod end;
mod fault;
mod laying;
mod making;
mod seat;
mod winding;

pub use clearing::LeftBehind;
pub use end::{End, conclude};
pub use fault::EndFault;
pub use laying::{LaidOut, Room, lay_out, make_room};
pub use seat::{Seat, Sits};
pub use winding::{WoundUp, wind_up_desks};
