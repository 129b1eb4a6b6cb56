//! Recordings read from their files, piece by piece.

ghost use Rattle.std.specs.Prelude.{◌≡◌, ◌+◌, ◌<◌, ◌≤◌, ◌^◌, ◌∷◌, ◌++◌, ℕ, List, None, Ok, Err};
ghost use Rattle.std.specs.Prelude.{length, IfOk, IfErr, OnOk};
ghost use Rattle.scq_lines.specs.Exports.{lines_of};
ghost use Rattle.memchr.specs.Find.{IsFirstByte, is_byte};
ghost use Rattle.scq_judge.specs.Recording.{after_lines, AllAreOfFiles};
ghost use Rattle.scq_judge.specs.Files.{IsFile};
ghost use Rattle.scq_judge.specs.Reads.{CountsFault, HasGiven, FileIsAdded, IsFileFault};
ghost use Rattle.scq_judge.specs.Reads.{IsLineFault};
ghost use Rattle.scq_judge.specs.Reads.{IsReadWhole};

use crate::entry::MOST_LINE;
use crate::judging::JudgeFault;
use crate::recorded::{Place, Recorded};
use memchr::memchr;
use scq_outside::{Failed, Source};
use std::alloc::Global;

/// The most bytes that one read is asked for.
const PIECE: usize = 65536;

/// The most bytes of a file.
const MOST_BYTES: u64 = (1 << 31) - 2;

/// A file that is read: its number, and whether it is the only one.
#[derive(Clone, Copy)]
pub(crate) struct Reading {
    pub file: u32,
    pub lone: bool,
}

/// How many lines of a file were taken, and what follows them: the front of a line.
#[derive(Drop)]
struct Taken<'a> {
    lines: u32,
    rest: &'a [u8],
}

impl Reading {
    /// Takes the line that follows so many of the file.
    fn add_line(
        self,
        alloc: Global,
        recorded: &mut Recorded,
        before: u32,
        text: &[u8],
    ) -> Result<(), JudgeFault>
        requires { before + 1 < 2 ^ 32 }
        ensures read { OnOk result ((lines : List (List ℕ))
            → after_lines self.file self.lone before recorded.old (text.now ∷ lines)
            ≡ after_lines self.file self.lone (before + 1) recorded.new lines) }
        ensures files { (count : ℕ) → IsFile count self.file → AllAreOfFiles count recorded.old
            → OnOk result (AllAreOfFiles count recorded.new) }
        ensures refused { IfErr result (IsLineFault self.file (λ l. (lines : List (List ℕ))
            → after_lines self.file self.lone before recorded.old (text.now ∷ lines) ≡ Err l)) }
    {
        let file = self.file;
        let line = before + 1;
        recorded.add_line(alloc, self.lone, Place { file, line }, text)
    }

    /// Takes the whole lines of these bytes, which follow so many lines of the file.
    fn take_lines<'a>(
        self,
        alloc: Global,
        recorded: &mut Recorded,
        before: u32,
        bytes: &'a [u8],
    ) -> Result<Taken<'a>, JudgeFault>
        requires room { before + length bytes.now < 2 ^ 31 }
        ensures taken { IfOk result (λ taken. (more : List ℕ)
            → after_lines self.file self.lone before recorded.old (lines_of (bytes.now ++ more))
            ≡ after_lines self.file self.lone taken.lines recorded.new
            (lines_of (taken.rest.now ++ more))) }
        ensures files { (count : ℕ) → IsFile count self.file → AllAreOfFiles count recorded.old
            → OnOk result (AllAreOfFiles count recorded.new) }
        ensures few { IfOk result (λ taken.
            taken.lines + length taken.rest.now ≤ before + length bytes.now) }
        ensures front { IfOk result (λ taken. IsFirstByte (is_byte 10) taken.rest.now None) }
        ensures refused { IfErr result (IsLineFault self.file (λ l. (more : List ℕ)
            → after_lines self.file self.lone before recorded.old (lines_of (bytes.now ++ more))
            ≡ Err l)) }
    {
        let mut lines = before;
        let mut rest = bytes;
        'lines: loop {
            match memchr(b'\n', rest) {
                Some(end) => {
                    self.add_line(alloc, recorded, lines, &rest[..end])?;
                    lines += 1;
                    rest = &rest[end + 1..];
                }
                None => {
                    if rest.len() > MOST_LINE {
                        return Err(JudgeFault::BadLine {
                            file: self.file,
                            line: lines + 1,
                        });
                    }
                    return Ok(Taken { lines, rest });
                }
            }
        }
    }

    /// Takes the bytes behind the last LF, where there are any, as a line that follows so many.
    fn take_last(
        self,
        alloc: Global,
        recorded: &mut Recorded,
        before: u32,
        bytes: &[u8],
    ) -> Result<(), JudgeFault>
        requires room { before < 2 ^ 31 }
        requires front { IsFirstByte (is_byte 10) bytes.now None }
        ensures read { OnOk result (after_lines self.file self.lone before recorded.old
            (lines_of bytes.now) ≡ Ok recorded.new) }
        ensures files { (count : ℕ) → IsFile count self.file → AllAreOfFiles count recorded.old
            → OnOk result (AllAreOfFiles count recorded.new) }
        ensures refused { IfErr result (IsLineFault self.file (λ l.
            after_lines self.file self.lone before recorded.old (lines_of bytes.now) ≡ Err l)) }
    {
        if bytes.is_empty() {
            return Ok(());
        }
        self.add_line(alloc, recorded, before, bytes)
    }

    /// Reads the file to its end.
    pub fn read<S: Source>(
        self,
        alloc: Global,
        recorded: &mut Recorded,
        source: &mut S,
    ) -> Result<(), JudgeFault>
        ensures added { OnOk result
            (FileIsAdded self.file self.lone recorded.old (S.left source.old) recorded.new) }
        ensures files { (count : ℕ) → IsFile count self.file → AllAreOfFiles count recorded.old
            → OnOk result (AllAreOfFiles count recorded.new) }
        ensures refused { IfErr result
            (IsFileFault self.file self.lone recorded.old (S.left source.old)) }
        ensures whole { OnOk result (IsReadWhole S.faults S.ends S.left source.old source.new) }
        ensures counted { IfErr result (λ fault.
            CountsFault fault (S.faults source.old) (S.faults source.new)) }
        ensures given { HasGiven S.faults S.left source.old source.new }
    {
        recorded.begin_file();
        let mut piece = [0; PIECE];
        let mut front = Vec::new(alloc);
        let mut lines = 0;
        let mut size = 0;
        'reads: loop {
            let Ok(count) = source.read(&mut piece) else {
                return Err(JudgeFault::ReadFault { file: self.file });
            };
            if count == 0 {
                return self.take_last(alloc, recorded, lines, &front);
            }
            size += count as u64;
            if size > MOST_BYTES {
                return Err(JudgeFault::TooLarge { file: self.file });
            }
            front.extend_from_slice(&piece[..count])?;
            let taken = self.take_lines(alloc, recorded, lines, &front)?;
            lines = taken.lines;
            front = Vec::from_slice(alloc, taken.rest)?;
        }
    }
}
