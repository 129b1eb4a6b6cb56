//! Schedules in which no call ends for long.

use anyhow::{Context, Result};
use scq_replay::schedule_text;
use std::alloc::Global;

/// Whether the line of a step says a reply.
fn ends_a_call(line: &str) -> bool {
    line.split(' ').any(|word| matches!(word, "done" | "got" | "nothing" | "spent"))
}

/// How many steps there are up to a line, how many of the last of them end no call, and how many
/// such follow one another at most.
#[derive(Clone, Copy)]
struct Window {
    steps: u64,
    now: u64,
    longest: u64,
}

impl Window {
    /// With one more line.
    fn and(self, line: &str) -> Window {
        let now = if ends_a_call(line) {
            0
        } else {
            self.now.saturating_add(1)
        };
        Window {
            steps: self.steps.saturating_add(1),
            now,
            longest: self.longest.max(now),
        }
    }
}

fn window_of(text: &str) -> Window {
    let mut window = Window {
        steps: 0,
        now: 0,
        longest: 0,
    };
    for line in text.lines() {
        window = window.and(line);
    }
    window
}

fn told(alloc: Global, text: &str) -> Result<String> {
    let Window { steps, longest, .. } = window_of(text);
    let last = text.lines().last().context("no step")?;
    Ok(format!(in alloc; "{steps} steps, {longest} in a row without an end, the last: {last}")?)
}

/// How many steps a schedule makes, how many of them at most follow one another of which none ends
/// a call, and the line of the last step.
pub fn longest_window(alloc: Global, schedule: &str) -> Result<String> {
    let printed = schedule_text(alloc, schedule.as_bytes())?;
    told(alloc, std::str::from_utf8(printed.bytes())?)
}
