ghost use Rattle.std.specs.Prelude.{◌≡◌};
ghost use Rattle.scq_collect.specs.Output.{answer_of_view, answer_of_whole};

use scq_topics::ReplyBytes;

/// The answer to a message: its file and line, both numbered from 1, its topic's number, how many
/// bytes its payload has, and the reply.
#[derive(Drop)]
pub struct Whole {
    pub file: u32,
    pub line: u32,
    pub topic: u32,
    pub bytes: u64,
    pub reply: ReplyBytes,
}

/// The answer to a message, whose reply stays where it is.
#[derive(Clone, Copy)]
pub struct AnswerView<'a> {
    pub file: u32,
    pub line: u32,
    pub topic: u32,
    pub bytes: u64,
    pub reply: &'a [u8],
}

impl Whole {
    /// The answer, where it is.
    pub fn view(&self) -> AnswerView<'_>
        ensures { answer_of_view result ≡ answer_of_whole self.now }
    {
        AnswerView {
            file: self.file,
            line: self.line,
            topic: self.topic,
            bytes: self.bytes,
            reply: self.reply.bytes(),
        }
    }
}
