ghost use Rattle.std.specs.Prelude.{◌≡◌, ℕ, ◌+◌, ◌<◌, ◌≤◌, ◌^◌, [], ◌∷◌, IfOk, IfSome, IsSome};
ghost use Rattle.std.specs.Prelude.{IsSomeAnd, Option, length, map};
ghost use Rattle.std.specs.List.{All};
ghost use Rattle.std.specs.List.Sorted.{IsPermutation};
ghost use Rattle.scq_collect.specs.Exports.{messages_to, part_answers, without_way, members_of};
ghost use Rattle.scq_self.specs.Exports.{generated as the_file, self_topics as the_topics};
ghost use Rattle.scq_self.specs.Exports.{self_summary};
ghost use Rattle.scq_work.specs.Exports.{HasWorked, NothingIsStranded};
ghost use Rattle.scq_files.specs.Exports.{messages_in};
ghost use Rattle.scq_service.specs.Answers.{TellsSelf};
ghost use Rattle.scq_service.specs.Ends.{EndsWithoutFiles, wrote_of};
ghost use Rattle.scq_service.specs.Naming.{cause_told};
ghost use Rattle.scq_outside.specs.declared.cause.Cause.{Cause as TheCause};

use crate::job::job_of;
use crate::writing::write_all;
use crate::{Fault, Outcome};
use scq_block::Frame;
use scq_collect::merge;
use scq_desk::End;
use scq_outside::{Failed, PlainSource, Sink, Source};
use scq_queue::Pass;
use scq_self::{generate, self_topics, summary_text};
use scq_topics::Topics;
use scq_word::{Bytes, NoMemory};
use scq_work::{Gate, Worked, work};
use std::alloc::Global;
use std::snapshot::Snapshot;
use std::thread::Threads;

/// There are 2^6 buffers.
const ORDER: u32 = 6;

/// The greatest number of bytes of a part of a payload of the file.
const SIZE: u32 = 1 << 16;

/// Makes the file of the seed, answers it, and writes its summary once that is whole. No source is
/// got.
pub fn run_self<R: Threads + Sync, S: Source, K: Sink, G: Gate + Sync>(
    rt: &R,
    alloc: Global,
    seed: u32,
    lines: u32,
    workers: u32,
    out: &mut K,
    gate: &G,
) -> Outcome<S>
    requires seed { seed < 2 ^ 31 }
    requires workers { (0 < workers) × (workers ≤ 4096) }
    ensures ends { EndsWithoutFiles (self_summary seed lines)
        (wrote_of K.Sink out.old out.new) result.fault }
    ensures caused { (files : Option TheCause) → result.cause
        ≡ cause_told S.cause result.sources.items files (K.cause out.new) result.fault }
    ensures tells { TellsSelf seed lines workers result }
{
    let Ok(answers) = answer_file(rt, alloc, seed, lines, workers, gate) else {
        return Outcome::at(Vec::new(alloc), Fault::NoMemory);
    };
    let Answers {
        worked,
        left,
        passes,
        frames,
    } = answers;
    let topics = self_topics();
    let text = summary_of(alloc, &topics, lines, &worked);
    let sources = Vec::new(alloc);
    let got = Snapshot::of(&sources);
    let outcome = Outcome::answered(sources, worked).behind(got, left, passes, frames, None);
    match text {
        Ok(text) => match write_all(out, text.bytes()) {
            Ok(()) => outcome,
            Err(Failed) => outcome.unwritten(out.cause()),
        },
        Err(NoMemory) => outcome.starved(),
    }
}

/// The answers to the file, and what is seen of the workers' queue.
#[derive(Drop)]
struct Answers {
    worked: Worked,
    left: Option<Vec<u64>>,
    passes: Option<Snapshot<Vec<Pass<Frame>>>>,
    frames: Option<Snapshot<Vec<Frame>>>,
}

/// Makes the file of the seed and answers its messages. Its lines are short and its source never
/// fails, so where answers are wanting, memory is.
fn answer_file<R: Threads + Sync, G: Gate + Sync>(
    rt: &R,
    alloc: Global,
    seed: u32,
    lines: u32,
    workers: u32,
    gate: &G,
) -> Result<Answers, NoMemory>
    requires seed { seed < 2 ^ 31 }
    requires workers { (0 < workers) × (workers ≤ 4096) }
    ensures known { IfOk result (λ a.
        All (λ m. m.topic ≤ length the_topics) (members_of a.worked.answered.items)) }
    ensures answers { IfOk result (λ a.
        IsPermutation (map without_way (members_of a.worked.answered.items))
        (part_answers the_topics (2 ^ 16) (messages_to the_topics 1 (the_file seed lines ∷ [])))) }
    ensures told { IfOk result (λ a.
        HasWorked the_topics (2 ^ 16) 0 workers
        (messages_in the_topics 1 (the_file seed lines ∷ [])) a.worked) }
    ensures left { IfOk result (λ a.
        IfSome a.left (λ left. IsSomeAnd a.passes (λ passes. IsSomeAnd a.frames (λ frames.
        NothingIsStranded 6 (length the_topics
        + 1) workers passes.value.items frames.value.items left.items)))) }
    ensures seen { IfOk result (λ a. IsSome a.left) }
    ensures same { IfOk result (λ a.
        IsSomeAnd a.passes (λ passes. passes.value.items ≡ a.worked.passes.value.items)) }
{
    let job = job_of(ORDER, SIZE, workers, self_topics(), false);
    let source = PlainSource::new(generate(alloc, seed, lines)?);
    let mut sources = Vec::with_capacity(alloc, 1)?;
    sources.push_reserved(source);
    let End {
        sources: _,
        result,
        left,
        passes,
        frames,
    } = work(rt, alloc, &job, sources, gate);
    match result {
        Ok(worked) => Ok(Answers {
            worked,
            left,
            passes,
            frames,
        }),
        Err(_) => Err(NoMemory),
    }
}

/// The summary of what workers answered of so many lines.
fn summary_of(
    alloc: Global,
    topics: &Topics,
    lines: u32,
    worked: &Worked,
) -> Result<Bytes, NoMemory>
    requires { All (λ a. a.topic ≤ length topics.now) (members_of worked.now.answered.items) }
    ensures { (seed : ℕ) → topics.now ≡ the_topics
        → IsPermutation (map without_way (members_of worked.now.answered.items))
        (part_answers the_topics (2 ^ 16) (messages_to the_topics 1 (the_file seed lines ∷ [])))
        → IfOk result (λ text. text ≡ self_summary seed lines) }
{
    let wholes = merge(alloc, topics, worked.answered.as_slice())?;
    summary_text(alloc, topics, lines, wholes.as_slice())
}
