//! What command lines ask for, and sources read whole.

use crate::row::Row;
use rows_text::{field, word_of};
use scq_outside::{MemSource, read_all};
use scq_words::{JudgeRequest, Request, RunRequest, StagesRequest, read_words};

/// `WORDS`: what they ask for, or why they are refused.
pub fn request(row: &mut Row, given: &str) {
    let mut words = Vec::new(row.alloc);
    for word in given.split(' ') {
        push_word(row, &mut words, word);
    }
    match read_words(row.alloc, words.as_slice()) {
        Ok(request) => put_request(row, &request),
        Err(error) => row.put_value(&error),
    }
}

/// `TIMES COMMAND WORD`: how many files the command asks for where it is given the word so often,
/// or why it is refused.
pub fn many(row: &mut Row, given: &str) {
    let mut words = Vec::new(row.alloc);
    push_word(row, &mut words, field(given, 1));
    for _ in 0..row.number(given, 0) {
        push_word(row, &mut words, field(given, 2));
    }
    match read_words(row.alloc, words.as_slice()) {
        Ok(request) => row.put_value(&files_of(&request)),
        Err(error) => row.put_value(&error),
    }
}

/// Adds the word that a text says.
fn push_word(row: &mut Row, words: &mut Vec<String>, text: &str) {
    match word_of(row.alloc, text) {
        Ok(word) => {
            if words.push(word).is_err() {
                row.fail();
            }
        }
        Err(_) => row.fail(),
    }
}

/// How many files are asked for.
fn files_of(request: &Request) -> usize {
    match request {
        Request::Run(run) => run.files.len(),
        Request::Stages(stages) => stages.files.len(),
        Request::Judge(judge) => judge.files.len(),
        Request::SelfRun(_) | Request::Text(_) => 0,
    }
}

fn put_request(row: &mut Row, request: &Request) {
    match request {
        Request::Run(run) => put_run(row, run),
        Request::Stages(stages) => put_stages(row, stages),
        Request::SelfRun(asked) => {
            row.put("self ");
            row.put_numbers(&[asked.seed.into(), asked.lines.into(), asked.workers.into()]);
        }
        Request::Text(asked) => {
            row.put_debug(&asked.command);
            row.put(" ");
            row.put(&asked.file);
        }
        Request::Judge(judge) => put_judge(row, judge),
    }
}

/// The workers, the order, the size, the number of topics, whether batches and a report are asked
/// for, and the files.
fn put_run(row: &mut Row, run: &RunRequest) {
    row.put("run ");
    row.put_numbers(&[run.workers.into(), run.order.into(), run.size.into()]);
    row.put(" ");
    row.put_value(&run.topics.len());
    if run.batch {
        row.put(" batch");
    }
    if run.report {
        row.put(" report");
    }
    put_files(row, &run.files);
}

/// The workers, the order, the size and the files.
fn put_stages(row: &mut Row, stages: &StagesRequest) {
    row.put("stages ");
    row.put_numbers(&[
        stages.workers.into(),
        stages.order.into(),
        stages.size.into(),
    ]);
    put_files(row, &stages.files);
}

/// The room, if any, whether the run is strict, whether it asks for an order, and the files.
fn put_judge(row: &mut Row, judge: &JudgeRequest) {
    row.put("judge");
    if let Some(room) = judge.room {
        row.put(" room ");
        row.put_value(&room);
    }
    if judge.strict {
        row.put(" strict");
    }
    if judge.order {
        row.put(" order");
    }
    put_files(row, &judge.files);
}

fn put_files(row: &mut Row, files: &[String]) {
    for file in files {
        row.put(" ");
        row.put(file);
    }
}

/// `FAILS MOST TEXT`: what comes of reading a source whole that gives two bytes at a time, and
/// whose read of this number fails.
pub fn read_whole(row: &mut Row, given: &str) {
    let text = row.bytes(field(given, 2));
    let fails = row.number(given, 0);
    let most = row.long(given, 1).min(1 << 30);
    let (Ok(pieces), Ok(fails)) = (vec![in row.alloc; 2; 9], vec![in row.alloc; fails]) else {
        return row.fail();
    };
    let mut source = MemSource::new(text, pieces, fails);
    match read_all(row.alloc, &mut source, most) {
        Ok(bytes) => row.put_bytes(bytes.bytes()),
        Err(fault) => row.put_value(&fault),
    }
}
