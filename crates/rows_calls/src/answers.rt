//! Answers merged and written.
ghost use Rattle.std.specs.Prelude.{◌≡◌, ◌≤◌, All, length};
ghost use Rattle.scq_collect.specs.Exports.{members_of};

use crate::row::Row;
use rows_text::field;
use scq_collect::{Answers, Given, PartView, Way, Whole, merge, output};
use scq_topics::{ReplyBytes, Topics};
use scq_word::NoMemory;

/// The number of a topic in field 2 that is declared, or the number behind the last.
fn topic_of(row: &mut Row, topics: &Topics, given: &str) -> u32
    ensures { result ≤ length topics.now }
{
    let topic = row.number(given, 2);
    if topic > topics.len() {
        row.fail();
        return 0;
    }
    topic
}

/// Adds an answer to a part: `FILE LINE TOPIC PART PARTS BYTES WAY NUMBER TEXT`, where the way is
/// `taken` or `direct`.
fn push_part(row: &mut Row, topics: &Topics, given: &str, to: &mut Answers)
    requires { All (λ a. a.topic ≤ length topics.now) to.old }
    ensures { All (λ a. a.topic ≤ length topics.now) to.new }
{
    let text = row.bytes(field(given, 8));
    let place = row.long(given, 7);
    let answer = PartView {
        file: row.number(given, 0),
        line: row.number(given, 1),
        topic: topic_of(row, topics, given),
        part: row.number(given, 3),
        parts: row.number(given, 4),
        bytes: row.long(given, 5),
        text: &text,
    };
    let way = way_of(field(given, 6), place);
    if to.push(Given { answer, way }).is_err() {
        row.fail();
    }
}

fn way_of(way: &str, place: u64) -> Way {
    match way {
        "taken" => Way::Taken { place, number: 0 },
        _ => Way::Direct { head: place },
    }
}

/// The answers to parts of a text that has `,` between them.
fn list_of(row: &mut Row, topics: &Topics, given: &str) -> Answers
    ensures { All (λ a. a.topic ≤ length topics.now) result }
{
    let mut list = Answers::new(row.alloc);
    for text in given.split(',') {
        if !text.is_empty() {
            push_part(row, topics, text, &mut list);
        }
    }
    list
}

/// Adds a list behind the others.
fn push_list(topics: &Topics, lists: &mut Vec<Answers>, list: Answers) -> Result<(), NoMemory>
    requires list { All (λ a. a.topic ≤ length topics.now) list }
    requires lists { All (λ a. a.topic ≤ length topics.now) (members_of lists.old.items) }
    ensures { All (λ a. a.topic ≤ length topics.now) (members_of lists.new.items) }
{
    lists.push(list)?;
    Ok(())
}

/// `TABLE LISTS`, lists with `/` between them: the answers to the messages whose parts stand in
/// them.
pub fn merged(row: &mut Row, given: &str) {
    let (table, given) = given.split_once(' ').unwrap_or((given, ""));
    let topics = row.topics(table);
    let mut lists = Vec::new(row.alloc);
    for part in given.split('/') {
        let list = list_of(row, &topics, part);
        if push_list(&topics, &mut lists, list).is_err() {
            row.fail();
        }
    }
    match merge(row.alloc, &topics, lists.as_slice()) {
        Ok(wholes) => put_wholes(row, &wholes),
        Err(_) => row.fail(),
    }
}

/// Adds answers to messages, each `FILE LINE TOPIC BYTES REPLY`, and a comma.
fn put_wholes(row: &mut Row, wholes: &[Whole]) {
    for whole in wholes {
        row.put_numbers(&[whole.file.into(), whole.line.into(), whole.topic.into()]);
        row.put(" ");
        row.put_value(&whole.bytes);
        row.put(" ");
        row.put_bytes(whole.reply.bytes());
        row.put(",");
    }
}

/// Adds an answer to a message: `FILE LINE TOPIC BYTES REPLY`.
fn push_whole(row: &mut Row, topics: &Topics, text: &str, to: &mut Vec<Whole>)
    requires { All (λ a. a.topic ≤ length topics.now) to.old.items }
    ensures { All (λ a. a.topic ≤ length topics.now) to.new.items }
{
    let reply = row.bytes(field(text, 4));
    let Ok(reply) = ReplyBytes::copy_of(row.alloc, &reply) else {
        return row.fail();
    };
    let whole = Whole {
        file: row.number(text, 0),
        line: row.number(text, 1),
        topic: topic_of(row, topics, text),
        bytes: row.long(text, 3),
        reply,
    };
    if to.push(whole).is_err() {
        row.fail();
    }
}

/// The answers to messages of a text that has `,` behind each.
fn wholes_of(row: &mut Row, topics: &Topics, given: &str) -> Vec<Whole>
    ensures { All (λ a. a.topic ≤ length topics.now) result.items }
{
    let mut wholes = Vec::new(row.alloc);
    for text in given.split(',') {
        if !text.is_empty() {
            push_whole(row, topics, text, &mut wholes);
        }
    }
    wholes
}

/// `TABLE ANSWERS`, of answers to messages that have `,` behind each: their text.
pub fn written(row: &mut Row, given: &str) {
    let (table, answers) = given.split_once(' ').unwrap_or((given, ""));
    let topics = row.topics(table);
    let wholes = wholes_of(row, &topics, answers);
    match output(row.alloc, &topics, wholes.as_slice()) {
        Ok(text) => row.put_bytes(text.bytes()),
        Err(_) => row.fail(),
    }
}
