//! The counts of ports, as C has them.
ghost use Rattle.std.specs.Prelude.{◌≡◌};
ghost use Rattle.scq_c.specs.Tallies.{AreWritten, tally_of};

use scq_queue::Counts;

/// How many sends, takes and Full replies a port had.
#[repr(C)]
#[derive(Drop)]
pub struct Tally {
    pub sent: u64,
    pub taken: u64,
    pub full: u64,
}

/// Writes out the counts of one port.
fn write_one(counts: &Counts, out: &mut Tally)
    ensures { out.new ≡ tally_of counts.now }
{
    out.sent = counts.sent;
    out.taken = counts.taken;
    out.full = counts.full;
}

/// Writes out these counts in their order, as many as fit.
pub(crate) fn write_out(counts: &[Counts], out: &mut [Tally])
    ensures { AreWritten counts.now out.old out.new }
{
    let mut k = 0;
    while k < counts.len() {
        if k >= out.len() {
            return;
        }
        let one = counts[k];
        write_one(&one, &mut out[k]);
        k += 1;
    }
}
