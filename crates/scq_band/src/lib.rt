//! The running rings: the words of the machine of `scq_core` in one table of atomic words, which
//! threads step through seats. It stands on `scq_core` for the steps, on `scq_law` for what holds
//! of every reachable state, and on the kit's `atomic_table`. The rule of the table (`specs/Shown`)
//! is that words and views show a state that steps reach. A band is made with its seats; an enqueue
//! and a dequeue of a seat are made of the machine's sixteen steps, by six atomic operations, of
//! which one may be an enqueue's E2 and E4 at once (`specs/Guesses`); notes carry what one seat
//! knows to another. The layer above uses the clauses of `Band`, which speak of a seat as its
//! standing (`specs/Standing`), and of all seats together where the band closes (`specs/Closing`).
#![tactic(auto)]

mod badges;
mod band;
mod band_note;
mod calls;
mod closing;
mod counting;
mod dequeue;
mod enqueue;
mod gate;
mod hand;
pub mod laws;
mod layout;
mod leftovers;
mod lending;
mod lifted;
mod making;
mod marks;
mod numbers;
mod ring;
mod rule;
mod seat;
mod slot;
mod splitting;
mod steps;
mod told;
mod view;

pub use band::Band;
pub use band_note::BandNote;
pub use calls::{DeqRefusal, Spent};
pub use closing::BandClosed;
pub use lifted::Lifted;
pub use marks::Mark;
pub use numbers::Numbers;
pub use seat::Seat;
pub use slot::{Slot, TellsHoles};
pub use view::View;
