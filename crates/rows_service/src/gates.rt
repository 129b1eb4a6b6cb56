//! Gates by which the two workers of a row wait for one another, so that both are at work at one
//! time. Where workers call no gate, the first reads of their files do the same.
ghost use Rattle.std.specs.Prelude.{◌<◌};

use scq_work::{Gate, Point};
use std::sync::atomic::{AtomicU64, Ordering};
use std::thread::yield_now;

/// How many turns a worker waits for the other.
const TURNS: u32 = 20_000_000;

/// How many turns it waits for one that rests, with a yield in each.
const YIELDS: u32 = 4_000_000;

/// How often a worker is about to take in a sweep that takes nothing, where one topic is declared.
const TAKES_OF_SWEEP: u64 = 2;

/// Where the workers of a row wait.
#[derive(Clone, Copy)]
pub enum Meeting {
    Nowhere,
    /// For one another, each at its first call with a point.
    AtPoints,
    /// Worker 0 stays behind its send until worker 1 has taken, and worker 1 in front of its first
    /// take until worker 0 has sent.
    Handing,
    /// In the first reads of their files, each of which waits for the other.
    Reading,
    /// Worker 1, whose file is empty, is to be woken by what worker 0 does next. Worker 0 stays in
    /// its first read until worker 1 has swept: it takes nothing, and rests. Then worker 0 stays
    /// behind its send, or where it sends nothing in front of its leaving, until worker 1 sweeps
    /// again.
    Waking,
}

/// Where the workers of a row wait, and what they have told one another: at points a flag for each
/// point and worker, and otherwise the flags or the count that have a number below.
#[derive(Drop)]
pub struct RowGate {
    meeting: Meeting,
    came: [AtomicU64; 6],
    /// How often one of them saw what it waited for.
    saw: AtomicU64,
}

/// Worker 0 has sent; worker 1 has come to a take, and has taken.
const SENT: usize = 0;

const CAME: usize = 1;

const TOOK: usize = 2;

/// The first reads have begun, of the first file and of the other.
const FIRST: usize = 0;

const SECOND: usize = 1;

/// How often worker 1 was about to take; worker 0 has waited behind what it did.
const TAKES: usize = 0;

const WAITED: usize = 1;

impl RowGate {
    pub fn new(meeting: Meeting) -> RowGate {
        RowGate {
            meeting,
            came: [
                AtomicU64::new(0),
                AtomicU64::new(0),
                AtomicU64::new(0),
                AtomicU64::new(0),
                AtomicU64::new(0),
                AtomicU64::new(0),
            ],
            saw: AtomicU64::new(0),
        }
    }

    /// What the first read of a file does, of the first file or of another.
    pub fn at_first_read(&self, first: bool) {
        match self.meeting {
            Meeting::Reading => self.meet_in_read(first),
            Meeting::Waking => self.wait_for_sweep(first),
            Meeting::Nowhere | Meeting::AtPoints | Meeting::Handing => {}
        }
    }

    /// Whether nobody waited in vain: each of two workers saw the other at each of three points, or
    /// in its first read; or one saw the other rest, and go on.
    pub fn is_met(&self) -> bool {
        let saw = self.saw.load(Ordering::SeqCst);
        match self.meeting {
            Meeting::AtPoints => saw == 6,
            Meeting::Reading | Meeting::Waking => saw == 2,
            Meeting::Nowhere | Meeting::Handing => true,
        }
    }

    fn count_one_seen(&self) {
        self.saw.fetch_add(1, Ordering::SeqCst);
    }

    fn meet_at(&self, worker: u32, point: Point) {
        let place = place(point);
        let own = if worker == 0 { place } else { 3 + place };
        let other = if worker == 0 { 3 + place } else { place };
        if self.came[own].swap(1, Ordering::SeqCst) == 0 && is_seen(&self.came[other]) {
            self.count_one_seen();
        }
    }

    fn hand(&self, worker: u32, point: Point) {
        match point {
            Point::AfterSend => {
                self.came[SENT].store(1, Ordering::SeqCst);
                is_seen(&self.came[TOOK]);
            }
            Point::BeforeTake => {
                if worker == 1 {
                    self.take_handed();
                }
            }
            Point::BeforeLeave => {}
        }
    }

    fn take_handed(&self) {
        if self.came[CAME].swap(1, Ordering::SeqCst) == 1 {
            self.came[TOOK].store(1, Ordering::SeqCst);
        } else {
            is_seen(&self.came[SENT]);
        }
    }

    /// Waits in the first read of a file until that of the other has begun.
    fn meet_in_read(&self, first: bool) {
        let own = if first { FIRST } else { SECOND };
        let other = if first { SECOND } else { FIRST };
        self.came[own].store(1, Ordering::SeqCst);
        if is_seen(&self.came[other]) {
            self.count_one_seen();
        }
    }

    fn wait_for_sweep(&self, first: bool) {
        if first && is_reached(&self.came[TAKES], TAKES_OF_SWEEP) {
            self.count_one_seen();
        }
    }

    fn wake(&self, worker: u32, point: Point) {
        if worker == 1 {
            if point == Point::BeforeTake {
                self.came[TAKES].fetch_add(1, Ordering::SeqCst);
            }
        } else if point != Point::BeforeTake {
            self.wait_for_waking();
        }
    }

    /// Waits once until the other, which rested, sweeps again.
    fn wait_for_waking(&self) {
        if self.came[WAITED].swap(1, Ordering::SeqCst) == 0
            && is_reached(&self.came[TAKES], TAKES_OF_SWEEP + 1)
        {
            self.count_one_seen();
        }
    }
}

impl Gate for RowGate {
    fn at(&self, worker: u32, point: Point) {
        match self.meeting {
            Meeting::Nowhere | Meeting::Reading => {}
            Meeting::AtPoints => self.meet_at(worker, point),
            Meeting::Handing => self.hand(worker, point),
            Meeting::Waking => self.wake(worker, point),
        }
    }
}

/// The place of a point.
fn place(point: Point) -> usize
    ensures { result < 3 }
{
    match point {
        Point::AfterSend => 0,
        Point::BeforeTake => 1,
        Point::BeforeLeave => 2,
    }
}

/// Waits until a flag is set, for so many turns at most.
fn is_seen(flag: &AtomicU64) -> bool {
    for _ in 0..TURNS {
        if flag.load(Ordering::SeqCst) == 1 {
            return true;
        }
    }
    false
}

/// Waits until a number is no less than this, for so many turns at most.
fn is_reached(number: &AtomicU64, least: u64) -> bool {
    for _ in 0..YIELDS {
        if number.load(Ordering::SeqCst) >= least {
            return true;
        }
        yield_now();
    }
    false
}
