//! The text of what several workers answered, made where the answers lie, in pieces, by several
//! threads.
ghost use Rattle.std.specs.Prelude.{◌≡◌, ℕ, ◌+◌, ◌<◌, ◌≤◌, ◌^◌, List, length, map, flat_map};
ghost use Rattle.std.specs.Prelude.{is_ok, IfOk, IsTrue, OnOk};
ghost use Rattle.std.specs.List.{All};
ghost use Rattle.std.specs.List.Sorted.{IsPermutation};
ghost use Rattle.scq_collect.specs.Collected.{messages_to};
ghost use Rattle.scq_collect.specs.Joined.{IsJoined, answers_of, part_answers, without_way};
ghost use Rattle.scq_collect.specs.Merging.{members_of};
ghost use Rattle.scq_collect.specs.Output.{Answer, answer_of_view, one_thread_output};
ghost use Rattle.scq_collect.specs.Output.{text_of_answers};
ghost use Rattle.scq_collect.specs.Pieces.{AreOfMembers, AreStretchesOf, IsPieceOf};
ghost use Rattle.scq_collect.specs.Pieces.{all_answers, pieces_bytes};
ghost use Rattle.scq_collect.specs.Spots.{plain, spot_answer};

use crate::Answers;
use crate::division::{Division, cuts_of, division_of, threads_at_once};
use crate::joining::whole_of;
use crate::laid::blocks_of;
use crate::messages::message_end;
use crate::spots::{Spot, read_spot};
use crate::stretches::{Stretch, stretches_in_order};
use crate::text::{push_all_totals, push_line};
use crate::totals::Totals;
use crate::whole::AnswerView;
use scq_topics::Topics;
use scq_word::NoMemory;
use std::alloc::Global;
use std::marker::Model;
use std::thread::Threads;

/// Lines for some answers, and their totals.
#[derive(Drop)]
pub struct Piece {
    pub text: Vec<u8>,
    pub totals: Totals,
}

/// A text in pieces that stand one behind the other. Contracts see its bytes.
#[derive(Drop)]
pub struct Text {
    pieces: Vec<Vec<u8>>,
}

impl Model for Text {
    ghost use Rattle.std.specs.Prelude.{List, ℕ};
    ghost use Rattle.scq_collect.specs.Pieces.{pieces_bytes};

    ghost Value = { List ℕ };

    ghost view = { λ t. pieces_bytes t.pieces.items };
}

impl Text {
    /// The pieces, in their order.
    pub fn pieces(&self) -> &[Vec<u8>]
        ensures { pieces_bytes result.now ≡ self.now }
    {
        self.pieces.as_slice()
    }
}

/// The text that `output` makes of what `merge` gives, in pieces to be written one behind the
/// other, by at most so many threads. No answer of one part is copied, and the texts of a message's
/// parts are joined while its line is made, where the reply needs them so. It fails only for want
/// of memory.
pub fn output_in_pieces<R: Threads + Sync>(
    rt: &R,
    alloc: Global,
    topics: &Topics,
    lists: &[Answers],
    threads: u32,
) -> Result<Text, NoMemory>
    requires { All (λ a. a.topic ≤ length topics.now) (members_of lists.now) }
    ensures text { IfOk result (λ text.
        (answers : List Answer) × IsJoined topics.now (members_of lists.now) answers
        × (text ≡ text_of_answers topics.now answers)) }

    // However the answers to all parts of the messages of files are divided into lists, the pieces
    // are the output of one thread.
    ensures one_thread { (size : ℕ) (contents : List (List ℕ)) → 0 < size
        → IsPermutation (map without_way (members_of lists.now))
        (part_answers topics.now size (messages_to topics.now 1 contents))
        → IfOk result (λ text. text ≡ one_thread_output topics.now contents) }
{
    let numbers = topics.len() + 1;
    let made = stretches_of_lists(rt, alloc, topics, lists, threads)?;
    let pieces = joined(alloc, topics, numbers, made)?;
    Ok(Text { pieces })
}

/// The stretches of the answers of these lists, made by at most so many threads, and at most one on
/// each processor.
fn stretches_of_lists<R: Threads + Sync>(
    rt: &R,
    alloc: Global,
    topics: &Topics,
    lists: &[Answers],
    threads: u32,
) -> Result<Vec<Result<Stretch, NoMemory>>, NoMemory>
    requires topics { length topics.now ≤ 16 }
    requires known { All (λ a. a.topic ≤ length topics.now) (members_of lists.now) }
    ensures { IfOk result (λ made. AreOfMembers topics.now (members_of lists.now) made.items) }
{
    let mut samples = Vec::new(alloc);
    let blocks = blocks_of(alloc, lists, &mut samples)?;
    samples.sort_unstable();
    let parts = parts_in(lists);
    let threads = threads_at_once(rt, threads);
    let Division { spans, pieces } = division_of(
        alloc,
        blocks.as_slice(),
        samples.as_slice(),
        parts,
        threads,
    )?;
    let cuts = cuts_of(alloc, spans.as_slice(), pieces)?;
    stretches_in_order(rt, alloc, topics, blocks.as_slice(), cuts.as_slice())
}

impl Piece {
    ghost use Rattle.std.specs.Prelude.{◌++◌, [], ◌∷◌, OnOk};
    ghost use Rattle.scq_collect.specs.Joined.{joined as the_joined};

    /// Adds the lines for the messages of these parts, and counts the messages.
    pub fn push_messages(
        &mut self,
        alloc: Global,
        topics: &Topics,
        spots: &[Spot<'_>],
    ) -> Result<(), NoMemory>
        requires few { length topics.now ≤ 16 }
        requires known { All (λ s. (spot_answer s).topic ≤ length topics.now) spots.now }
        requires room { (answers : List Answer) × IsPieceOf topics.now answers self.old
            × (length answers + length spots.now < 2 ^ 64) }
        ensures { (answers : List Answer) → IsPieceOf topics.now answers self.old
            → OnOk result (IsPieceOf topics.now
            (answers ++ answers_of topics.now (plain spots.now)) self.new) }
    {
        let mut at = 0;
        'messages: while at < spots.len() {
            let end = message_end(spots, at);
            self.push_message(alloc, topics, &spots[at..end])?;
            at = end;
        }
        Ok(())
    }

    /// Adds the line for the message of these parts, and counts the message.
    fn push_message(
        &mut self,
        alloc: Global,
        topics: &Topics,
        parts: &[Spot<'_>],
    ) -> Result<(), NoMemory>
        requires some { 0 < length parts.now }
        requires few { length topics.now ≤ 16 }
        requires known { All (λ s. (spot_answer s).topic ≤ length topics.now) parts.now }
        requires room { (answers : List Answer) × IsPieceOf topics.now answers self.old
            × (length answers + 1 < 2 ^ 64) }
        ensures { (answers : List Answer) → IsPieceOf topics.now answers self.old
            → OnOk result (IsPieceOf topics.now (answers ++ the_joined topics.now (plain parts.now)
            ∷ []) self.new) }
    {
        if parts.len() == 1 {
            return self.push(topics, &read_spot(&parts[0]).whole());
        }
        let whole = whole_of(alloc, topics, parts)?;
        self.push(topics, &whole.view())
    }

    /// Adds the line for an answer, and counts it.
    fn push(&mut self, topics: &Topics, answer: &AnswerView<'_>) -> Result<(), NoMemory>
        requires few { length topics.now ≤ 16 }
        requires known { answer.now.topic ≤ length topics.now }
        requires room { (answers : List Answer) × IsPieceOf topics.now answers self.old
            × (length answers + 1 < 2 ^ 64) }
        ensures { (answers : List Answer) → IsPieceOf topics.now answers self.old
            → OnOk result (IsPieceOf topics.now (answers ++ answer_of_view answer.now
            ∷ []) self.new) }
    {
        push_line(&mut self.text, topics, answer)?;
        self.totals.count(answer);
        Ok(())
    }
}

/// How many parts the lists answer.
fn parts_in(lists: &[Answers]) -> usize {
    let mut parts: usize = 0;
    for list in lists {
        parts = parts.saturating_add(list.len());
    }
    parts
}

/// The texts of stretches, of how many parts they were made, and the totals of their answers.
#[derive(Drop)]
pub struct Texts {
    pub texts: Vec<Vec<u8>>,
    pub parts: usize,
    pub totals: Totals,
}

impl Texts {
    ghost use Rattle.std.specs.Prelude.{◌++◌};
    ghost use Rattle.scq_topics.specs.declared.kind.Kind.{Kind};
    ghost use Rattle.scq_collect.specs.Pieces.{IsStretchOf};
    ghost use Rattle.scq_collect.specs.Texts.{AreTextsOf};

    /// Adds a stretch, where it was made.
    fn add(&mut self, made: Result<Stretch, NoMemory>) -> Result<(), NoMemory>
        requires { (topics : List (List ℕ × Kind)) × (answers more : List Answer)
            × AreTextsOf topics answers self.old × IfOk made (IsStretchOf topics more) }
        ensures added { (topics : List (List ℕ × Kind)) (answers more : List Answer)
            → AreTextsOf topics answers self.old → IfOk made (IsStretchOf topics more)
            → OnOk result (AreTextsOf topics (answers ++ more) self.new) }
        ensures made { OnOk result (IsTrue (is_ok made)) }
    {
        let stretch = made?;
        self.parts = self.parts.checked_add(stretch.parts).ok_or(NoMemory)?;
        self.totals.add(&stretch.piece.totals);
        self.texts.push(stretch.piece.text)?;
        Ok(())
    }

    /// The texts, and behind them that of the totals.
    fn with_totals(
        self,
        alloc: Global,
        topics: &Topics,
        numbers: u32,
    ) -> Result<Vec<Vec<u8>>, NoMemory>
        requires numbers { (numbers ≡ length topics.now + 1) × (numbers ≤ 17) }
        ensures { (answers : List Answer) → AreTextsOf topics.now answers self
            → IfOk result (λ texts.
            pieces_bytes texts.items ≡ text_of_answers topics.now answers) }
    {
        let mut last = Vec::new(alloc);
        push_all_totals(&mut last, topics, numbers, &self.totals)?;
        let mut texts = self.texts;
        texts.push(last)?;
        Ok(texts)
    }
}

/// The texts of the stretches of these answers, and behind them that of the totals.
fn joined(
    alloc: Global,
    topics: &Topics,
    numbers: u32,
    made: Vec<Result<Stretch, NoMemory>>,
) -> Result<Vec<Vec<u8>>, NoMemory>
    requires numbers { (numbers ≡ length topics.now + 1) × (numbers ≤ 17) }
    requires made { (lists : List (List Answer)) × AreStretchesOf topics.now lists made.items }
    ensures text { (lists : List (List Answer)) → AreStretchesOf topics.now lists made.items
        → IfOk result (λ texts.
        pieces_bytes texts.items ≡ text_of_answers topics.now (all_answers lists)) }
    ensures made { OnOk result (All (λ s. IsTrue (is_ok s)) made.items) }
{
    let mut so_far = Texts {
        texts: Vec::with_capacity(alloc, made.len())?,
        parts: 0,
        totals: Totals::none(),
    };
    'stretches: for stretch in made {
        so_far.add(stretch)?;
    }
    so_far.with_totals(alloc, topics, numbers)
}
