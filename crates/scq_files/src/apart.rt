//! Work at all desks, side by side.
ghost use Rattle.std.specs.Prelude.{◌≡◌, ◌<◌, length};
ghost use Rattle.std.specs.Fork.{AcceptsEach, ChangesEach};

use std::marker::{Send, Sync};
use std::thread;
use std::thread::Threads;

/// Calls `work` at each desk, each in a thread of its own where one can be made. The desks come
/// back in their order.
pub fn work_apart<R: Threads + Sync, D: Send, F: Fn(usize, &mut D) + Sync>(
    rt: &R,
    desks: Vec<D>,
    work: &F,
) -> Vec<D>
    requires some { 0 < length desks.items }
    requires accepts { AcceptsEach F.Fn work.now desks.items }
    ensures count { length result.items ≡ length desks.items }
    ensures each { ChangesEach F.Fn work.now desks.items result.items }
{
    let mut desks = desks;
    let threads = desks.len();
    thread::for_each_mut(rt, desks.as_mut_slice(), threads, work);
    desks
}
