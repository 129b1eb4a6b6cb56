//! Files of a row, and how reads and writes are cut.
ghost use Rattle.std.specs.Prelude.{◌≡◌, if◌then◌else◌, IsTrue, IfOk, IfSome, None, Some};
ghost use Rattle.scq_outside.specs.Exports.{are_pieces};

use crate::gates::RowGate;
use anyhow::{Context, Result};
use rows_text::add_line;
use scq_outside::{Cause, Failed, Files, MemSink, MemSource, Source};
use scq_word::NoMemory;
use std::alloc::Global;

/// How the calls of an object go: the greatest piece that one moves, and the number of the one that
/// fails, from 1. None is number 0.
#[derive(Clone, Copy, Drop)]
pub struct Cut {
    piece: u32,
    fails: u32,
}

impl Cut {
    pub const WHOLE: Cut = Cut {
        piece: 4096,
        fails: 0,
    };

    /// A piece and the number of a call.
    pub fn of(text: &str) -> Result<Cut> {
        let (piece, fails) = text.split_once(' ').context("a piece and a call")?;
        Ok(Cut {
            piece: piece.parse::<u32>()?,
            fails: fails.parse::<u32>()?,
        })
    }

    /// A sink with so much room, whose writes are cut so.
    pub fn sink(&self, alloc: Global, room: u64) -> Result<MemSink, NoMemory> {
        MemSink::new(
            alloc,
            room,
            self.pieces(alloc, room as usize)?,
            self.failing(alloc)?,
        )
    }

    /// A source of these bytes, whose reads are cut so.
    fn source(&self, alloc: Global, content: &[u8]) -> Result<MemSource, NoMemory>
        ensures { IfOk result (λ source. source.faults ≡ 0) }
    {
        let pieces = self.pieces(alloc, content.len())?;
        let failing = self.failing(alloc)?;
        Ok(MemSource::new(content.to_vec(alloc)?, pieces, failing))
    }

    #[tactic(auto, using(crate::proofs::Pieces::pieces_replicate))]
    fn pieces(&self, alloc: Global, count: usize) -> Result<Vec<u32>, NoMemory>
        ensures { IfOk result (λ pieces. IsTrue (are_pieces pieces.items)) }
    {
        // Where no call moves less than a buffer there is nothing to cut.
        let count = if self.piece < Cut::WHOLE.piece {
            count
        } else {
            0
        };
        Ok(vec![in alloc; self.piece.max(1); count]?)
    }

    fn failing(&self, alloc: Global) -> Result<Vec<u32>, NoMemory> {
        let mut numbers = Vec::new(alloc);
        if self.fails > 0 {
            numbers.push(self.fails)?;
        }
        Ok(numbers)
    }
}

/// A file of a row.
#[derive(Drop)]
pub struct RowFile {
    name: String,
    content: Vec<u8>,
    /// How its reads are cut, where not as those of all files.
    reads: Option<Cut>,
    /// It gives lines that never end in place of its content.
    endless: bool,
    /// It is the first file of the row.
    first: bool,
}

impl RowFile {
    /// An empty file.
    pub fn new(alloc: Global, name: String, first: bool) -> RowFile {
        RowFile {
            name,
            content: Vec::new(alloc),
            reads: None,
            endless: false,
            first,
        }
    }

    /// Adds what a line says of it; that of `|` is a line of its content.
    pub fn add(&mut self, mark: &str, text: &str) -> Result<()> {
        match mark {
            "endless" => self.endless = true,
            "cut" => self.reads = Some(Cut::of(text)?),
            _ => add_line(&mut self.content, text)?,
        }
        Ok(())
    }
}

/// The source of a file of a row. Its bytes are visible, unless they never end.
#[derive(Drop)]
pub struct RowSource<'a> {
    content: MemSource,
    endless: bool,
    /// The gate that its first read calls, and whether it is that of the first file.
    gate: Option<(&'a RowGate, bool)>,
}

impl Source for RowSource<'_> {
    ghost faults = { λ s. s.content.faults };

    ghost ends = { λ s. s.content.ends };

    ghost left = { λ s. if s.endless then None else Some s.content.left };

    ghost cause = { λ _. None };

    fn cause(&self) -> Option<Cause> {
        None
    }

    fn read(&mut self, into: &mut [u8]) -> Result<usize, Failed> {
        if let Some((gate, first)) = self.gate.take() {
            gate.at_first_read(first);
        }
        if !self.endless {
            return self.content.read(into);
        }
        into.fill(b'x');
        let last = into.len() - 1;
        into[last] = b'\n';
        Ok(into.len())
    }
}

/// The files of a row, each of which is given once. Their sources are cut alike, but for those that
/// have cuts of their own.
#[derive(Drop)]
pub struct RowFiles<'a> {
    alloc: Global,
    files: &'a [RowFile],
    reads: Cut,
    gate: &'a RowGate,
    given: Vec<bool>,
    faults: u64,
}

impl<'a> RowFiles<'a> {
    pub fn new(
        alloc: Global,
        files: &'a [RowFile],
        reads: Cut,
        gate: &'a RowGate,
    ) -> Result<RowFiles<'a>, NoMemory> {
        Ok(RowFiles {
            alloc,
            files,
            reads,
            gate,
            given: vec![in alloc; false; files.len()]?,
            faults: 0,
        })
    }

    /// The first file of this name that isn't given yet, which is given now.
    fn next(&mut self, name: &str) -> Option<&'a RowFile>
        ensures { self.new.faults ≡ self.old.faults }
    {
        for (file, given) in self.files.iter().zip(self.given.iter_mut()) {
            if file.name.as_str() == name && !*given {
                *given = true;
                return Some(file);
            }
        }
        None
    }

    /// The source of the next file of this name.
    fn source_of(&mut self, name: &str) -> Option<RowSource<'a>>
        ensures faults { self.new.faults ≡ self.old.faults }
        ensures fresh { IfSome result (λ source. source.content.faults ≡ 0) }
    {
        let file = self.next(name)?;
        let reads = file.reads.unwrap_or(self.reads);
        let content = reads.source(self.alloc, file.content.as_slice()).ok()?;
        Some(RowSource {
            content,
            endless: file.endless,
            gate: Some((self.gate, file.first)),
        })
    }
}

impl<'a> Files for RowFiles<'a> {
    type Src = RowSource<'a>;

    ghost faults = { λ f. f.faults };

    ghost table = { λ _. None };

    ghost cause = { λ _. None };

    fn cause(&self) -> Option<Cause> {
        None
    }

    fn source(&mut self, name: &str) -> Result<RowSource<'a>, Failed> {
        match self.source_of(name) {
            Some(source) => Ok(source),
            None => {
                self.faults = self.faults.saturating_add(1);
                Err(Failed)
            }
        }
    }
}
