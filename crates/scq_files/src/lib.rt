//! The files of workers. A file is a source with its number, read message by message; what it gave
//! and how its reading ended is told by `IsRead` (`specs/Reading`), and what that says of all files
//! by `specs/Ends`. Which files are a worker's is `specs/Files`. A worker has its files on a desk,
//! whatever else it has there: `deal` lays them on the desks, and `gather` takes them off in their
//! order and says how the reading of all ended (`specs/Desks`). `work_apart` has work done at each
//! desk, side by side. It stands on `scq_frames`, whose messages these are. What is done with the
//! messages isn't said here.
#![tactic(auto)]

mod apart;
mod dealing;
mod desk;
mod gathering;
mod given;
mod handler;
mod own_file;
mod own_lists;
mod reading;

pub use apart::work_apart;
pub use dealing::deal;
pub use desk::Desk;
pub use gathering::{Gathered, gather};
pub use given::{Given, give};
pub use handler::Handler;
pub use own_file::{FileEnd, OwnFile};
pub use own_lists::make_lists;
pub use reading::read_files;
