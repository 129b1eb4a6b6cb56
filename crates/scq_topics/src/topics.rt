ghost use Rattle.std.specs.Prelude.{◌≡◌, ◌≤◌, ◌<◌, [], ◌∷◌, ◌++◌, length, map, IfOk, OnOk};
ghost use Rattle.std.specs.Result.{result_err};

use crate::Kind;
use crate::entry::{MOST_NAME, is_name, split_entry};
use arrayvec::ArrayVec;
use std::marker::Model;
use thiserror::Error;

/// The most topics that are declared.
const MOST_TOPICS: usize = 16;

/// Why a text declares no topics. `at` is the number of the faulty entry, from 1.
#[derive(Clone, Copy, Debug, PartialEq, Eq, Error)]
pub enum TopicFault {
    /// There is a 17th entry.
    #[error("topics entry {at}: too many")]
    TooMany { at: u32 },
    /// The name is not 1 to 32 bytes, each an ASCII letter or digit, `_` or `.`.
    #[error("topics entry {at}: bad name")]
    BadName { at: u32 },
    /// There is no `=`, or what stands after the first is no kind.
    #[error("topics entry {at}: bad kind")]
    BadKind { at: u32 },
    /// An earlier entry has this name.
    #[error("topics entry {at}: named twice")]
    Twice { at: u32 },
}

/// A declared topic. Contracts see the bytes of its name, and its kind.
#[derive(Default, Drop)]
struct Topic {
    name: ArrayVec<u8, MOST_NAME>,
    kind: Kind,
}

impl Model for Topic {
    ghost use Rattle.std.specs.Prelude.{List, ℕ};
    ghost use Rattle.scq_topics.specs.declared.kind.Kind.{Kind};

    ghost Value = { List ℕ × Kind };

    ghost view = { λ t. (t.name.items, t.kind) };
}

/// The declared topics of a command line, which take no memory beside the value itself. Contracts
/// see the list of the names and kinds, in order.
#[derive(Drop)]
pub struct Topics {
    topics: ArrayVec<Topic, MOST_TOPICS>,
}

impl Model for Topics {
    ghost use Rattle.std.specs.Prelude.{List, ℕ};
    ghost use Rattle.scq_topics.specs.declared.kind.Kind.{Kind};

    ghost Value = { List (List ℕ × Kind) };

    ghost view = { λ t. t.topics.items };

    ghost use Rattle.scq_topics.specs.Topics.{HaveShortNames};

    ghost invariant = { λ t. HaveShortNames t.topics.items };
}

impl Topic {
    ghost use Rattle.scq_topics.specs.Topics.{has_name};

    fn new(name: &[u8], kind: Kind) -> Topic
        requires { length name.now ≤ MOST_NAME }
        ensures { result ≡ (name.now, kind) }
    {
        let mut copy = ArrayVec::new();
        copy.try_extend_from_slice(name).unwrap();
        Topic { name: copy, kind }
    }

    fn has_name(&self, name: &[u8]) -> bool
        ensures { result ≡ has_name name.now self.now }
    {
        self.name.as_slice() == name
    }
}

impl Topics {
    ghost use Rattle.scq_topics.specs.Topics.{HaveShortNames, entries_of, entry_fault, first_fault};
    ghost use Rattle.scq_topics.specs.Topics.{declared_by, topic_of, name_of, kind_of};

    /// No declared topics: every message is on an undeclared one.
    pub fn none() -> Topics
        ensures { result ≡ [] }
    {
        Topics {
            topics: ArrayVec::new(),
        }
    }

    /// The topics that a text declares: entries `name=kind`, joined by commas. The first faulty
    /// entry is refused; the empty text is one entry without a name.
    pub fn read(text: &str) -> Result<Topics, TopicFault>
        ensures refused { result_err result ≡ first_fault [] (entries_of text.now) }
        ensures declared { IfOk result (λ topics. topics ≡ map declared_by (entries_of text.now)) }
    {
        let mut topics = Topics::none();
        for entry in text.as_bytes().split(|byte| *byte == b',') {
            topics.declare(entry)?;
        }
        Ok(topics)
    }

    /// Appends the topic that an entry declares, or says what is wrong with the entry.
    fn declare(&mut self, entry: &[u8]) -> Result<(), TopicFault>
        ensures refused { result_err result ≡ entry_fault self.old entry.now }
        ensures declared { OnOk result (self.new ≡ self.old ++ declared_by entry.now ∷ []) }
    {
        let at = self.len() + 1;
        if self.topics.is_full() {
            return Err(TopicFault::TooMany { at });
        }
        let (name, kind) = split_entry(entry);
        if !is_name(name) {
            return Err(TopicFault::BadName { at });
        }
        let Some(kind) = kind else {
            return Err(TopicFault::BadKind { at });
        };
        if self.find(name) < self.len() {
            return Err(TopicFault::Twice { at });
        }
        self.topics.push(Topic::new(name, kind));
        Ok(())
    }

    /// How many topics are declared, at most 16.
    pub fn len(&self) -> u32
        ensures value { result ≡ length self.now }
        ensures fits { result ≤ 16 }
    {
        self.topics.len() as u32
    }

    /// The most bytes that a name of a topic has.
    pub fn most_name(&self) -> usize
        ensures value { result ≡ 32 }
        ensures names { HaveShortNames self.now }
    {
        let _ = &self.topics;
        MOST_NAME
    }

    /// The number of the declared topic with this name, from 0, or `len()` where none has it.
    pub fn find(&self, name: &[u8]) -> u32
        ensures value { result ≡ topic_of self.now name.now }
        ensures bound { result ≤ length self.now }
    {
        let found = self
            .topics
            .as_slice()
            .iter()
            .position(|topic| topic.has_name(name));
        found.unwrap_or(self.topics.len()) as u32
    }

    /// The name of a topic, and `-` for the number `len()`, which stands for all that nobody
    /// declared.
    pub fn name(&self, topic: u32) -> &[u8]
        requires { topic ≤ length self.now }
        ensures { result.now ≡ name_of self.now topic }
    {
        match self.topics.as_slice().get(topic as usize) {
            Some(topic) => topic.name.as_slice(),
            None => b"-",
        }
    }

    /// The kind of a topic, and the default one for the number `len()`.
    pub fn kind(&self, topic: u32) -> Kind
        requires { topic ≤ length self.now }
        ensures { result ≡ kind_of self.now topic }
    {
        match self.topics.as_slice().get(topic as usize) {
            Some(topic) => topic.kind,
            None => Kind::default(),
        }
    }
}
