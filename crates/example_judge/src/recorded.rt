//! The format of a recorded history: the events of all seats in the order in which they came, one a
//! line. An empty line, or one that begins with `#`, says nothing.
//!
//! - `open CONTENT`: a token that stands in the queue before.
//! - `SEAT put CONTENT`, and its end `SEAT done`.
//! - `SEAT get`, and its end `SEAT got PUT CONTENT` or `SEAT empty`.
//!
//! A PUT says which put the value came from: `SEAT.NUMBER`, a seat's puts being counted from 1, or
//! `open.NUMBER`, the tokens being counted from 0. So a queue that is to be judged carries this
//! name beside each value: equal contents would not tell one put from another.

ghost use Rattle.std.specs.Prelude.{◌≡◌, IfOk};
ghost use Rattle.std.specs.List.{All};
ghost use Rattle.example_judge.specs.Events.{IsOn, seat_of_call};

use anyhow::{Context, Result, anyhow};
use scq_hist::{Call, Event, PutName, Reply};
use scq_word::Bytes;
use std::alloc::Global;

/// The queue's number. Opening tokens stand in queue 0 alone.
const QUEUE: u32 = 0;

/// What a file says: the contents of the tokens, and the events.
#[derive(Drop)]
pub struct Recorded {
    pub opening: Vec<Bytes>,
    pub events: Vec<Event>,
}

impl Recorded {
    /// Fails at the first line that isn't of the format, and where memory is wanted.
    pub fn read(alloc: Global, text: &str) -> Result<Recorded>
        ensures queue { IfOk result (λ recorded. All (IsOn 0) recorded.events.items) }
    {
        let mut opening = Vec::new(alloc);
        let mut events = Vec::new(alloc);
        for line in text.lines() {
            if line.is_empty() || line.starts_with('#') {
                continue;
            }
            let (first, rest) = line.split_once(' ').context("a line of one word")?;
            if first == "open" {
                opening.push(content_of(alloc, rest)?)?;
            } else {
                events.push(event_of(alloc, first.parse::<u32>()?, rest)?)?;
            }
        }
        Ok(Recorded { opening, events })
    }
}

fn event_of(alloc: Global, seat: u32, words: &str) -> Result<Event>
    ensures seat { IfOk result (λ event. seat_of_call event ≡ seat) }
    ensures queue { IfOk result (IsOn 0) }
{
    let (word, rest) = words.split_once(' ').unwrap_or((words, ""));
    Ok(match word {
        "put" => {
            let content = content_of(alloc, rest)?;
            let call = Call::Put {
                queue: QUEUE,
                content,
            };
            Event::Start { seat, call }
        }
        "get" => Event::Start {
            seat,
            call: Call::Get { queue: QUEUE },
        },
        "done" => Event::End {
            seat,
            reply: Reply::Done,
        },
        "empty" => Event::End {
            seat,
            reply: Reply::Nothing,
        },
        "got" => {
            let (put, content) = rest.split_once(' ').context("a got without its put")?;
            let name = name_of(put)?;
            let content = content_of(alloc, content)?;
            Event::End {
                seat,
                reply: Reply::Got { name, content },
            }
        }
        _ => return Err(anyhow!("no such event")),
    })
}

fn name_of(text: &str) -> Result<PutName> {
    let (seat, number) = text.split_once('.').context("a put without its number")?;
    Ok(if seat == "open" {
        PutName::Opening {
            number: number.parse::<u32>()?,
        }
    } else {
        PutName::Of {
            seat: seat.parse::<u32>()?,
            number: number.parse::<u64>()?,
        }
    })
}

fn content_of(alloc: Global, text: &str) -> Result<Bytes>
    ensures { IfOk result (λ content. content ≡ text.now) }
{
    Ok(Bytes::from(Vec::from_slice(alloc, text.as_bytes())?))
}
