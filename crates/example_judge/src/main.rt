//! Judges recorded histories of a queue of one's own: for each file that is named on the command
//! line, the answers of the five tests of `scq_hist`. `recorded.rt` has the format of the files.
#![tactic(auto)]

mod recorded;

use anyhow::Result;
use recorded::Recorded;
use scq_hist::{empty_right, fresh, in_order, lawful_calls, once};
use std::{env, fs};

fn main(rt: HostRuntime) -> Result<()> {
    for name in env::args(&rt)?.skip(1) {
        let text = fs::read_to_string(&rt, &name)?;
        let Recorded { opening, events } = Recorded::read(rt.alloc(), &text)?;
        // The other tests are of lawful histories alone.
        if !lawful_calls(&events) {
            println!(rt; "{name}: not lawful")?;
            continue;
        }
        let fresh = fresh(&opening, &events);
        let once = once(&events);
        let in_order = in_order(&opening, &events);
        let empty_right = empty_right(&opening, &events);
        println!(rt;
            "{name}: fresh {fresh}, once {once}, in order {in_order}, empty right {empty_right}"
        )?;
    }
    Ok(())
}
