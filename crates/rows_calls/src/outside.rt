//! Sources, sinks and files, in memory and of the system.
ghost use Rattle.std.specs.Prelude.{◌≡◌, ◌<◌, IfOk, length};

use crate::row::Row;
use rows_text::field;
use scq_outside::{
    DiskFiles, Failed, Files, MemFiles, MemSink, MemSource, PlainSource, Sink, Source, StdSink,
    StdStream,
};
use scq_word::NoMemory;
use sha2::{Digest, Sha256};
use std::alloc::{AllocError, Global};
use std::fs::{self, File};
use std::io::{self, Write};
use std::rt::{self, Stdin};

/// Adds what so many reads of at most so many bytes give, up to the end.
fn put_reads<S: Source>(row: &mut Row, source: &mut S, most: u32, reads: u32) {
    let Ok(mut into) = vec![in row.alloc; 0; most as usize] else {
        return row.fail();
    };
    for _ in 0..reads {
        if !put_read(row, source, &mut into) {
            break;
        }
    }
}

/// Adds what a read gives, and tells whether it isn't the end.
fn put_read<S: Source>(row: &mut Row, source: &mut S, into: &mut [u8]) -> bool {
    if into.is_empty() {
        row.fail();
        return false;
    }
    match source.read(into) {
        Ok(0) => {
            row.put("end");
            return false;
        }
        Ok(count) => put_piece(row, into, count),
        Err(Failed) => row.put("failed;"),
    }
    true
}

/// Adds the first so many bytes, and a semicolon.
fn put_piece(row: &mut Row, bytes: &[u8], count: usize) {
    match bytes.get(..count) {
        Some(piece) => row.put_bytes(piece),
        None => row.fail(),
    }
    row.put(";");
}

/// `MOST TEXT`: the reads of a plain source.
pub fn plain(row: &mut Row, given: &str) {
    let most = row.number(given, 0);
    let text = row.bytes(field(given, 1));
    put_reads(row, &mut PlainSource::new(text), most, 9);
}

/// `MOST TEXT`: the reads of a source that gives at most 2, 9, 1 and 4 bytes at first, and whose
/// reads 2 and 5 fail.
pub fn told(row: &mut Row, given: &str) {
    let most = row.number(given, 0);
    let text = row.bytes(field(given, 1));
    let (Ok(pieces), Ok(fails)) = (vec![in row.alloc; 2, 9, 1, 4], vec![in row.alloc; 5, 2]) else {
        return row.fail();
    };
    put_reads(row, &mut MemSource::new(text, pieces, fails), most, 9);
}

/// Adds how many bytes of a piece a sink takes.
fn put_taken<S: Sink>(row: &mut Row, sink: &mut S, piece: &str) {
    if piece.is_empty() {
        return row.fail();
    }
    match sink.write(piece.as_bytes()) {
        Ok(count) => {
            row.put_value(&count);
            row.put(";");
        }
        Err(Failed) => row.put("failed;"),
    }
}

/// A sink with so much room, whose first write takes at most 2 bytes and whose second fails.
fn sink_of(alloc: Global, room: u32) -> Result<MemSink, NoMemory> {
    let pieces = vec![in alloc; 2]?;
    let fails = vec![in alloc; 2]?;
    MemSink::new(alloc, u64::from(room), pieces, fails)
}

/// `ROOM PIECE ..`: how many bytes of each piece a sink takes whose first write takes at most 2 and
/// whose second fails; and what it has.
pub fn taken(row: &mut Row, given: &str) {
    let Ok(mut sink) = sink_of(row.alloc, row.number(given, 0)) else {
        return row.fail();
    };
    for piece in given.split(' ').skip(1) {
        put_taken(row, &mut sink, piece);
    }
    row.put_bytes(sink.bytes());
}

fn source_of(alloc: Global, text: &str) -> Result<MemSource, AllocError>
    ensures { IfOk result (λ source. source.faults ≡ 0) }
{
    let bytes = text.as_bytes().to_vec(alloc)?;
    Ok(MemSource::new(bytes, Vec::new(alloc), Vec::new(alloc)))
}

/// Files in memory that are named `f` and `g` and have their names.
fn files_of(alloc: Global) -> Result<MemFiles, NoMemory> {
    let mut files = MemFiles::new(alloc);
    files.add("f", source_of(alloc, "f")?)?;
    files.add("g", source_of(alloc, "g")?)?;
    Ok(files)
}

/// Adds what the source of a name gives, by reads of three bytes.
fn open<F: Files>(row: &mut Row, files: &mut F, name: &str) {
    match files.source(name) {
        Ok(mut source) => put_reads(row, &mut source, 3, 3),
        Err(Failed) => row.put("none"),
    }
    row.put(" ");
}

/// `NAME ..`: what comes of each name, of files in memory that are named `f` and `g` and have their
/// names.
pub fn opened(row: &mut Row, given: &str) {
    let Ok(mut files) = files_of(row.alloc) else {
        return row.fail();
    };
    for name in given.split(' ') {
        open(row, &mut files, name);
    }
}

/// A stream that takes at most so many bytes at a time, and fails where that is none.
#[derive(Drop)]
struct Narrow {
    most: usize,
}

impl Write for Narrow {
    fn write(&mut self, piece: &[u8]) -> io::Result<usize> {
        if self.most == 0 {
            return Err(io::Error::from(io::ErrorKind::BrokenPipe));
        }
        Ok(piece.len().min(self.most))
    }

    fn flush(&mut self) -> io::Result<()> {
        Ok(())
    }
}

/// `MOST PIECE`: how many bytes of a piece a stream takes that takes at most so many.
pub fn streamed(row: &mut Row, given: &str) {
    let most = row.number(given, 0) as usize;
    put_taken(row, &mut StdSink::new(Narrow { most }), field(given, 1));
}

/// Adds how many bytes each read gives, of at most 4,096 up to the end, and the digest of all.
fn put_digest<S: Source>(row: &mut Row, source: &mut S) {
    let Ok(mut into) = vec![in row.alloc; 0; 4096] else {
        return row.fail();
    };
    let mut digest = Sha256::new();
    for _ in 0..9u32 {
        match source.read(&mut into) {
            Ok(0) => break,
            Ok(count) => put_count(row, &mut digest, &into, count),
            Err(Failed) => row.fail(),
        }
    }
    row.put_hex(&digest.finalize());
}

/// Adds how many bytes a read gave, and to a digest these bytes.
fn put_count(row: &mut Row, digest: &mut Sha256, bytes: &[u8], count: usize) {
    row.put_value(&count);
    row.put(";");
    match bytes.get(..count) {
        Some(piece) => digest.update(piece),
        None => row.fail(),
    }
}

/// The numbers from 0 up, so many, modulo 251.
fn content_of(row: &mut Row, bytes: u32) -> Vec<u8> {
    let mut content = Vec::new(row.alloc);
    for number in 0..bytes {
        if content.push((number % 251) as u8).is_err() {
            row.fail();
        }
    }
    content
}

/// Adds what the reads of a file of the system give that has the numbers from 0 up, so many, modulo
/// 251.
pub fn put_whole<R: rt::Files<File = File>>(row: &mut Row, system: &R, stdin: Stdin, bytes: u32) {
    let name = "whole.txt";
    let content = content_of(row, bytes);
    if fs::write(system, name, content.as_slice()).is_err() {
        row.fail();
    }
    match DiskFiles::new(system, stdin).source(name) {
        Ok(mut source) => put_digest(row, &mut source),
        Err(Failed) => row.put("none"),
    }
    if fs::remove_file(system, name).is_err() {
        row.fail();
    }
}

/// How many bytes the program has written to files and streams, where the system tells.
fn written_so_far<R: rt::Files<File = File> + AllocGlobal>(system: &R) -> Option<u64> {
    let told = fs::read_to_string(system, "/proc/self/io").ok()?;
    let (_, written) = told.split_once("\nwchar: ")?;
    written.lines().next()?.parse().ok()
}

/// Whether a stream of the system took a piece of six bytes; and how many were written, six also
/// where the system doesn't tell.
pub fn on_stream<R: rt::Files<File = File> + AllocGlobal>(
    system: &R,
    stream: StdStream,
) -> (bool, u64) {
    let before = written_so_far(system);
    let taken = StdSink::new(stream).write(b"taken\n").is_ok();
    let after = written_so_far(system);
    let written = match (before, after) {
        (Some(before), Some(after)) => after.saturating_sub(before),
        _ => 6,
    };
    (taken, written)
}

/// Adds what a file of the system of this name gives that has `a b` and an LF, and what comes of
/// its name when it is gone.
pub fn put_file<R: rt::Files<File = File>>(row: &mut Row, system: &R, stdin: Stdin, name: &str) {
    let mut files = DiskFiles::new(system, stdin);
    if fs::write(system, name, "a b\n").is_err() {
        row.fail();
    }
    open(row, &mut files, name);
    if fs::remove_file(system, name).is_err() {
        row.fail();
    }
    open(row, &mut files, name);
    // A folder opens, and its reads fail.
    open(row, &mut files, ".");
}
