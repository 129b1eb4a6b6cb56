//! How the work on all answers is divided: into spans of places, and these into pieces.
ghost use Rattle.std.specs.Prelude.{◌≡◌, ◌<◌, flat_map, IfOk};
ghost use Rattle.scq_collect.specs.Spans.{AreNext};

use crate::laid::{Block, bytes_in};
use crate::spans::Span;
use scq_word::NoMemory;
use std::alloc::Global;
use std::thread;
use std::thread::Threads;

/// How many parts are enough for a piece, and how many bytes of text.
const PARTS: usize = 1 << 14;

const BYTES: usize = 1 << 20;

/// How many spans are enough for all pieces, and how many for one: where its own parts lie is kept
/// for one span at a time. Where the messages of several files stand mixed in the blocks, each span
/// takes a walk over all of them.
const SPANS: usize = 8;

const SPANS_EACH: usize = 2;

/// How many pieces are made at most where the blocks are walked more often than `WALKS` in the mean
/// with more of them, and how often they are with these: so all walks together take time in
/// proportion to the answers, however many threads there are.
const PIECES: usize = 8;

const WALKS: usize = PIECES * SPANS_EACH;

/// How many of so many threads run at once: at most one on each processor. Where the system doesn't
/// tell how many there are, all of them.
pub fn threads_at_once<R: Threads>(rt: &R, threads: u32) -> usize {
    let threads = threads as usize;
    match thread::available_parallelism(rt) {
        Ok(processors) => threads.min(processors.get()),
        Err(_) => threads,
    }
}

/// How many pieces are made of so many parts: at most as many as threads, each with parts enough,
/// or about bytes enough.
fn count_of_pieces(parts: usize, bytes: usize, threads: usize) -> usize
    ensures { 0 < result }
{
    let mean = (bytes / parts.max(1)).max(1);
    let enough = (BYTES / mean).clamp(1, PARTS);
    parts.div_ceil(enough).min(threads).max(1)
}

/// How many spans are made of so many parts, for so many pieces: none has fewer parts than are
/// enough for a piece, unless it is the one of its piece.
fn count_of_spans(parts: usize, pieces: usize) -> usize
    requires { 0 < pieces }
{
    let each = (SPANS / pieces).max(SPANS_EACH);
    pieces.saturating_mul((parts / pieces / PARTS).clamp(1, each))
}

/// At most about so many spans that divide all places. Each has about as many of the samples, which
/// stand in order: which places they are is a matter of balance alone.
fn spans_of(alloc: Global, samples: &[u64], count: usize) -> Result<Vec<Span>, NoMemory>
    ensures { IfOk result (λ spans. AreNext 0 spans.items) }
{
    let step = samples.len().div_ceil(count.max(1)).max(1);
    let mut spans = Vec::new(alloc);
    let mut least = 0;
    let mut at = step;
    'spans: while at < samples.len() {
        let most = samples[at].min(u64::MAX - 1);
        if least <= most {
            spans.push(Span { least, most })?;
            least = most + 1;
        }
        at = at.saturating_add(step);
    }
    spans.push(Span {
        least,
        most: u64::MAX,
    })?;
    Ok(spans)
}

/// Spans of the places of these blocks, cut into pieces.
#[derive(Drop)]
pub struct Division {
    pub spans: Vec<Span>,
    pub pieces: usize,
}

/// How the work on so many parts in blocks is divided into at most as many pieces as threads. A
/// piece walks each block that meets one of its spans. Where that are too many, there are fewer
/// pieces.
pub fn division_of(
    alloc: Global,
    blocks: &[Block<'_>],
    samples: &[u64],
    parts: usize,
    threads: usize,
) -> Result<Division, NoMemory>
    ensures spans { IfOk result (λ d. AreNext 0 d.spans.items) }
    ensures pieces { IfOk result (λ d. 0 < d.pieces) }
{
    let pieces = count_of_pieces(parts, bytes_in(blocks), threads);
    let spans = spans_of(alloc, samples, count_of_spans(parts, pieces))?;
    if pieces <= PIECES || walks_of(blocks, spans.as_slice()) / WALKS <= blocks.len() {
        return Ok(Division { spans, pieces });
    }
    let spans = spans_of(alloc, samples, count_of_spans(parts, PIECES))?;
    Ok(Division {
        spans,
        pieces: PIECES,
    })
}

/// How many walks over blocks are made for these spans.
fn walks_of(blocks: &[Block<'_>], spans: &[Span]) -> usize {
    let mut walks: usize = 0;
    for block in blocks {
        walks = walks.saturating_add(walks_over(block, spans));
    }
    walks
}

/// How many walks over this block are made for these spans.
fn walks_over(block: &Block<'_>, spans: &[Span]) -> usize {
    let mut walks: usize = 0;
    for span in spans {
        if block.span.meets(span) {
            walks = walks.saturating_add(1);
        }
    }
    walks
}

/// Spans cut into at most so many pieces.
pub fn cuts_of(alloc: Global, spans: &[Span], pieces: usize) -> Result<Vec<&[Span]>, NoMemory>
    requires { 0 < pieces }
    ensures { IfOk result (λ cuts. flat_map (λ cut. cut.now) cuts.items ≡ spans.now) }
{
    let size = spans.len().div_ceil(pieces).max(1);
    let mut cuts = Vec::new(alloc);
    let mut at = 0;
    'cuts: while at < spans.len() {
        let end = at.saturating_add(size).min(spans.len());
        cuts.push(&spans[at..end])?;
        at = end;
    }
    Ok(cuts)
}
