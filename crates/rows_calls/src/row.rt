//! A row that is being answered: fields of what it gives are read, and its answer grows. It fails
//! where a field doesn't say what it should and where memory is wanted. Zeros and nothing stand for
//! what is missing then, and there is no answer.

use rows_text::{add_bytes, field};
use scq_topics::Topics;
use std::alloc::Global;
use std::fmt::{Debug, Display};

/// A row, as far as it is answered.
#[derive(Drop)]
pub struct Row {
    pub alloc: Global,
    text: String,
    fails: bool,
}

impl Row {
    pub fn new(alloc: Global) -> Row {
        Row {
            alloc,
            text: String::new(alloc),
            fails: false,
        }
    }

    /// The answer, unless the row fails.
    pub fn answer(self) -> Option<String> {
        if self.fails { None } else { Some(self.text) }
    }

    pub fn fail(&mut self) {
        self.fails = true;
    }

    /// The number in a field.
    pub fn number(&mut self, given: &str, at: usize) -> u32 {
        match field(given, at).parse::<u32>() {
            Ok(number) => number,
            Err(_) => {
                self.fail();
                0
            }
        }
    }

    /// The long number in a field.
    pub fn long(&mut self, given: &str, at: usize) -> u64 {
        match field(given, at).parse::<u64>() {
            Ok(number) => number,
            Err(_) => {
                self.fail();
                0
            }
        }
    }

    /// The bytes that a text says.
    pub fn bytes(&mut self, text: &str) -> Vec<u8> {
        let mut bytes = Vec::new(self.alloc);
        self.fails |= add_bytes(&mut bytes, text).is_err();
        bytes
    }

    /// The topics of a table, or none where it is `-`.
    pub fn topics(&mut self, table: &str) -> Topics {
        if table == "-" {
            return Topics::none();
        }
        match Topics::read(table) {
            Ok(topics) => topics,
            Err(_) => {
                self.fail();
                Topics::none()
            }
        }
    }

    /// Adds a text.
    pub fn put(&mut self, text: &str) {
        self.fails |= self.text.push_str(text).is_err();
    }

    /// Adds what a value says.
    pub fn put_value<T: Display>(&mut self, value: &T) {
        self.fails |= write!(self.text, "{value}").is_err();
    }

    /// Adds what a value is.
    pub fn put_debug<T: Debug>(&mut self, value: &T) {
        self.fails |= write!(self.text, "{value:?}").is_err();
    }

    /// Adds what a value says, or `none`.
    pub fn put_or_none<T: Display + Drop>(&mut self, value: Option<T>) {
        match value {
            Some(value) => self.put_value(&value),
            None => self.put("none"),
        }
    }

    /// Adds numbers with a space between them.
    pub fn put_numbers(&mut self, numbers: &[u64]) {
        let mut gap = "";
        for number in numbers {
            self.put(gap);
            self.put_value(number);
            gap = " ";
        }
    }

    /// Adds bytes as hexadecimal digits.
    pub fn put_hex(&mut self, bytes: &[u8]) {
        match hex::encode(self.alloc, bytes) {
            Ok(digits) => self.put(&digits),
            Err(_) => self.fail(),
        }
    }

    /// Adds bytes as text.
    pub fn put_bytes(&mut self, bytes: &[u8]) {
        match String::from_utf8_lossy(self.alloc, bytes) {
            Ok(text) => self.put(&text),
            Err(_) => self.fail(),
        }
    }
}
