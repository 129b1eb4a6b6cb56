ghost use Rattle.std.specs.Prelude.{◌≡◌, ◌≢◌, ◌⊎◌, ℕ, List, ◌+◌, ◌^◌, ◌<◌, ◌≤◌, [], length, take};
ghost use Rattle.std.specs.Prelude.{drop, false, map, IsTrue, Err, IfOk, IfErr, IfSome, IfNone};
ghost use Rattle.std.specs.Prelude.{OnOk, OnErr, IsErrOf, sum_by};
ghost use Rattle.std.specs.Option.{option_to_list};
ghost use Rattle.scq_topics.specs.Exports.{HaveShortNames, topic_of};
ghost use Rattle.scq_frames.specs.Numbered.{numbered};
ghost use Rattle.scq_frames.specs.Text.{message_in, payload_of};
ghost use Rattle.scq_frames.specs.Finding.{IsTooLong};
ghost use Rattle.scq_frames.specs.Coming.{Found};
ghost use Rattle.scq_frames.specs.Lines.{EndsAt, HasNoLineFeed};
ghost use Rattle.scq_frames.specs.Trimming.{IsTrimmed};
ghost use Rattle.scq_frames.specs.Framing.{Fetched, IsNext, NothingLeft, fresh, visible_ahead};
ghost use Rattle.scq_frames.specs.Framing.{weight_of, work_left};
ghost use Rattle.scq_frames.specs.Answers.{GivesFirst, GoesOn, HasFault, ReadsFrom};

use crate::cut::{message_of_line, split_line};
use crate::window::{READ, Window};
use crate::{FrameFault, Message};
use scq_outside::Source;
use scq_topics::Topics;
use scq_word::NoMemory;
use std::alloc::Global;
use std::marker::Model;

/// Cuts what a source gives into messages.
#[derive(Drop)]
pub struct Framer {
    alloc: Global,
    file: u32,
    size: u32,
    most: u64,
    window: Window,
    line: u32,
    read: u64,
    ended: bool,
    failed: bool,
    weight: u64,
    short: bool,
    spare: Vec<u8>,
}

impl Model for Framer {
    ghost use Rattle.scq_frames.specs.Framing.{Framing};

    ghost Value = { Framing };

    ghost use Rattle.scq_frames.specs.FramerState.{IsFramerState, framing};

    ghost view = { framing };

    ghost invariant = { λ f. IsFramerState (framing f) };
}

impl Framer {
    /// A framer of the file of this number. A payload may have `size` bytes, and the file `most`.
    pub fn new(alloc: Global, file: u32, size: u32, most: u64) -> Result<Framer, NoMemory>
        requires { most ≤ 2 ^ 30 }
        ensures { IfOk result (λ framer. framer ≡ fresh file size most) }
    {
        Ok(Framer {
            alloc,
            file,
            size,
            most,
            window: Window::new(alloc)?,
            line: 0,
            read: 0,
            ended: false,
            failed: false,
            weight: 0,
            short: false,
            spare: Vec::new(alloc),
        })
    }

    /// Whether a call of `next` answered an `Err`.
    pub fn failed(&self) -> bool
        ensures { result ≡ self.now.failed }
    {
        self.failed
    }

    /// The next message, or `None` at the end. After an `Err` the framer has failed.
    pub fn next<S: Source>(
        &mut self,
        topics: &Topics,
        source: &mut S,
    ) -> Result<Option<Message>, FrameFault>
        requires { self.old.failed ≡ false }

        // However the source gives its bytes, the messages are those ahead, one by one, where what
        // it has left is visible. Of every source their lines rise, and their weights are bounded.
        ensures gives { IfOk result (GivesFirst (topic_of topics.now) self.old self.new
            (S.left source.old) (S.left source.new)) }
        ensures next { IfOk result (λ given.
            IfSome given (IsNext (length topics.now) self.old self.new)) }

        // A fault is the trouble of what the source gave, and without one there is none so far. A
        // long payload is found only once its line has ended, and each fault behind the messages in
        // front of it. No byte is read too early.
        ensures found { Found self.old self.new (S.left source.old) (S.left source.new) result }
        ensures fault { IfErr result (HasFault self.old self.new) }

        ensures source { ReadsFrom S.Source (IsErrOf result FrameFault.ReadFault)
            self.old self.new source.old source.new }
        ensures goes_on { GoesOn self.old self.new result }
    {
        self.failed = true;
        let given = loop {
            match self.line_len() {
                Some(len) => {
                    if let Some(message) = self.pass(topics, len, len + 1)? {
                        break Some(message);
                    }
                }
                None => {
                    if self.has_ended() {
                        break self.last_line(topics)?;
                    }
                    if self.trim(topics) {
                        return Err(self.count_long(source));
                    }
                    self.read(source)?;
                }
            }
        };
        self.failed = false;
        Ok(given)
    }

    /// Takes a message's memory, in which the next one's payload is to lie.
    pub fn reuse(&mut self, message: Message)
        ensures same { self.new ≡ self.old }
    {
        self.spare = Vec::from(message.payload);
    }

    /// Whether the next call of `next` may have to wait: no line that is held has its end, and the
    /// last read gave fewer bytes than were asked for, as of a pipe that has no more yet.
    pub fn may_wait(&mut self) -> bool
        ensures same { self.new ≡ self.old }
        ensures none { IsTrue result → HasNoLineFeed self.old.held 0 (length self.old.held) }
    {
        self.short && self.line_len().is_none()
    }

    /// The length of the first line that is held, where an LF ends it.
    fn line_len(&mut self) -> Option<usize>
        ensures same { self.new ≡ self.old }
        ensures found { IfSome result (EndsAt self.old.held) }
        ensures none { IfNone result (HasNoLineFeed self.old.held 0 (length self.old.held)) }
        ensures small { length self.old.held ≤ 2 ^ 31 }
    {
        self.window.line_len()
    }

    fn has_ended(&self) -> bool
        ensures { result ≡ self.now.ended }
    {
        self.ended
    }

    /// Passes the first line: `len` bytes, which take `used` with an LF behind them. Answers its
    /// message, where it has bytes.
    fn pass(
        &mut self,
        topics: &Topics,
        len: usize,
        used: usize,
    ) -> Result<Option<Message>, FrameFault>
        requires within { used ≤ length self.old.held }
        requires takes { (used ≡ len + 1)
            ⊎ ((used ≡ len) × (0 < len) × (len ≡ length self.old.held) × IsTrue self.old.ended) }
        ensures given { IfOk result (λ given. option_to_list given
            ≡ map (numbered self.old.file (topic_of topics.now))
            (message_in (self.old.line + 1) (take len self.old.held))) }
        ensures passed { IfOk result (λ given. self.new ≡ record self.old {
          line = self.old.line + 1;
          held = drop used self.old.held;
          weight = self.old.weight + sum_by weight_of (option_to_list given);
        }) }
        ensures topic { IfOk result (λ given. IfSome given (λ m. m.topic ≤ length topics.now)) }
        ensures fits { OnOk result (length (payload_of (take len self.old.held)) ≤ self.old.size) }
        ensures long { (at count : ℕ) → IsErrOf result (FrameFault.TooLong at count)
            → IsTooLong self.old.size (self.old.line + 1) (take len self.old.held) at count }
        ensures faults { IfErr result (λ fault.
            ((at : ℕ) × (count : ℕ) × (fault ≡ FrameFault.TooLong at count))
            ⊎ (fault ≡ FrameFault.NoMemory)) }
        ensures err { OnErr result (self.new ≡ self.old) }
    {
        let line = self.line + 1;
        let bytes = self.window.front(len);
        let given = message_of_line(
            self.alloc,
            &mut self.spare,
            topics,
            self.file,
            self.size,
            line,
            bytes,
        )?;
        if let Some(message) = &given {
            self.weight += message.payload.bytes().len().max(1) as u64 + 1;
        }
        self.line = line;
        self.window.skip(used);
        Ok(given)
    }

    /// Passes the last line, which no LF ends, where it has bytes.
    fn last_line(&mut self, topics: &Topics) -> Result<Option<Message>, FrameFault>
        requires ended { IsTrue self.old.ended }
        ensures given { IfOk result (λ given. option_to_list given
            ≡ map (numbered self.old.file (topic_of topics.now))
            (message_in (self.old.line + 1) self.old.held)) }
        ensures none { IfOk result (λ given. IfNone given (self.new ≡ self.old)) }
        ensures nothing { self.old.held ≡ [] → result ≡ Ok None }
        ensures some { IfOk result (λ given. IfSome given (λ m.
            self.new ≡ record self.old {
              line = self.old.line + 1;
              held = [];
              weight =
                  self.old.weight + weight_of m;
            })) }
        ensures topic { IfOk result (λ given. IfSome given (λ m. m.topic ≤ length topics.now)) }
        ensures fits { OnOk result (length (payload_of self.old.held) ≤ self.old.size) }
        ensures long { (at count : ℕ) → IsErrOf result (FrameFault.TooLong at count)
            → IsTooLong self.old.size (self.old.line + 1) self.old.held at count }
        ensures faults { IfErr result (λ fault.
            ((at : ℕ) × (count : ℕ) × (fault ≡ FrameFault.TooLong at count))
            ⊎ (fault ≡ FrameFault.NoMemory)) }
        ensures err { OnErr result (self.new ≡ self.old) }
    {
        let len = self.window.len();
        if len == 0 {
            return Ok(None);
        }
        self.pass(topics, len, len)
    }

    /// Cuts the topic of a line that has not ended: what stays is still longer than any name.
    /// Answers whether what is held then shows that the payload is too long.
    fn trim(&mut self, topics: &Topics) -> bool
        requires clear { HasNoLineFeed self.old.held 0 (length self.old.held) }
        ensures same { self.new ≡ record self.old { held = self.new.held } }
        ensures trimmed { IsTrimmed 33 self.old.held self.new.held }
        ensures names { HaveShortNames topics.now }
        ensures long { IsTrue result → self.new.size < length (payload_of self.new.held) }
        ensures short { result ≡ false → length self.new.held ≤ self.new.size + 34 }
    {
        let most = topics.most_name() + 1;
        self.window.cut_topic(most);
        self.window.len() > self.size as usize + most + 1
    }

    /// Reads on to the end of a line whose payload is too long, counts its bytes and holds none of
    /// them, and answers the fault.
    fn count_long<S: Source>(&mut self, source: &mut S) -> FrameFault
        requires going { self.old.ended ≡ false }
        requires failing { IsTrue self.old.failed }
        requires within { self.old.read ≤ self.old.most }
        requires clear { HasNoLineFeed self.old.held 0 (length self.old.held) }
        requires long { self.old.size < length (payload_of self.old.held) }
        ensures same { self.new ≡ record self.old {
          held = self.new.held;
          read =
              self.new.read;
          ended = self.new.ended;
        } }
        ensures found { Found self.old self.new (S.left source.old) (S.left source.new)
            (Err result) }
        ensures held { length self.new.held ≤ self.new.size + 4130 }
        ensures fault { HasFault self.old self.new result }
        ensures source { ReadsFrom S.Source (result ≡ FrameFault.ReadFault)
            self.old self.new source.old source.new }
        ensures end { IsTrue self.new.ended → NothingLeft (S.left source.new) }
    {
        let number = self.line + 1;
        let mut len = self.payload_len();
        self.give_up_held();
        'reads: loop {
            if let Err(fault) = self.read(source) {
                return fault;
            }
            match self.line_len() {
                Some(more) => {
                    let len = len + more as u64;
                    return FrameFault::TooLong { line: number, len };
                }
                None => {
                    len += self.give_up_held();
                    if self.has_ended() {
                        return FrameFault::TooLong { line: number, len };
                    }
                }
            }
        }
    }

    /// The length of the payload that is held of a line.
    fn payload_len(&self) -> u64
        ensures value { result ≡ length (payload_of self.now.held) }
        ensures within { result ≤ self.now.read }
    {
        let (_, payload) = split_line(self.window.front(self.window.len()));
        payload.len() as u64
    }

    /// Gives up what is held, and answers how many bytes that is.
    fn give_up_held(&mut self) -> u64
        ensures none { self.new ≡ record self.old { held = [] } }
        ensures count { result ≡ length self.old.held }
        ensures within { result ≤ self.old.read }
    {
        let len = self.window.len();
        self.window.skip(len);
        len as u64
    }

    /// Reads at most `READ` bytes, up to the limit in all, and one more there.
    fn read<S: Source>(&mut self, source: &mut S) -> Result<(), FrameFault>
        requires going { self.old.ended ≡ false }
        requires failing { IsTrue self.old.failed }
        requires within { self.old.read ≤ self.old.most }
        requires short { length self.old.held ≤ self.old.size + 34 }
        ensures same { self.new ≡ record self.old {
          held = self.new.held;
          read =
              self.new.read;
          ended = self.new.ended;
        } }
        ensures few { self.new.read ≤ self.old.read + 4096 }
        ensures fetched { Fetched self.old self.new (S.left source.old) (S.left source.new) }
        ensures ahead { (number : List ℕ → ℕ) →
            OnOk result (visible_ahead number self.old (S.left source.old)
            ≡ visible_ahead number self.new (S.left source.new)) }
        ensures source { ReadsFrom S.Source (IsErrOf result FrameFault.ReadFault)
            self.old self.new source.old source.new }
        ensures end { IsTrue self.new.ended → NothingLeft (S.left source.new) }
        ensures within { OnOk result (self.new.read ≤ self.new.most) }
        ensures held { length self.new.held ≤ self.new.size + 4130 }
        ensures falls { OnOk result (work_left self.new < work_left self.old) }

        ensures too_large { (bytes : ℕ) → IsErrOf result (FrameFault.TooLarge bytes)
            → (bytes ≡ self.new.most + 1) × (self.new.read ≡ bytes)
            × (self.old.read ≡ self.old.most) }
        ensures long { (at len : ℕ) → result ≢ Err (FrameFault.TooLong at len) }
        ensures unread { IsErrOf result FrameFault.ReadFault → self.new ≡ self.old }
    {
        let ask = (self.most - self.read).clamp(1, READ as u64) as usize;
        let got = self.window.read(source, ask)?;
        self.read += got as u64;
        self.ended = got == 0;
        self.short = got < ask;
        if self.read > self.most {
            return Err(FrameFault::TooLarge { bytes: self.read });
        }
        Ok(())
    }
}
