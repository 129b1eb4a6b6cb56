ghost use Rattle.std.specs.Prelude.{◌≡◌, ◌<◌, ◌≤◌, ◌^◌, ◌++◌, decimal, IfOk, OnOk};
ghost use Rattle.scq_self.specs.Generated.{generated, line_for, next_number, self_topics};

use itoa::Buffer;
use scq_topics::Topics;
use scq_word::NoMemory;
use std::alloc::Global;

/// The topics of the file, one of each kind.
const TOPICS: &str = "l=len,w=words,s=sum,h=sha256,e=echo";

/// The names of the topics, in the order of declaration.
const NAMES: [u8; 5] = [b'l', b'w', b's', b'h', b'e'];

/// The declared topics of the file.
pub fn self_topics() -> Topics
    ensures { result ≡ self_topics }
{
    match Topics::read(TOPICS) {
        Ok(topics) => topics,
        Err(_) => unreachable!(),
    }
}

/// The file with so many lines that is made from the seed, which is below 2^31.
pub fn generate(alloc: Global, seed: u32, lines: u32) -> Result<Vec<u8>, NoMemory>
    requires { seed < 2 ^ 31 }
    ensures { IfOk result (λ text. text.items ≡ generated seed lines) }
{
    let mut text = Vec::new(alloc);
    let mut x = seed;
    for line in 0..lines {
        x = next_number(x);
        push_line(&mut text, x, line + 1)?;
    }
    Ok(text)
}

/// The number after a number.
fn next_number(x: u32) -> u32
    requires { x < 2 ^ 31 }
    ensures value { result ≡ next_number x }
    ensures small { result < 2 ^ 31 }
{
    ((u64::from(x) * 1103515245 + 12345) % (1 << 31)) as u32
}

/// Adds a line: `topic x line`.
fn push_line(text: &mut Vec<u8>, x: u32, line: u32) -> Result<(), NoMemory>
    ensures { OnOk result (text.new.items ≡ text.old.items ++ line_for x line) }
{
    text.push(NAMES[(x % 5) as usize])?;
    text.extend_from_slice(b" ")?;
    push_number(text, x)?;
    text.extend_from_slice(b" ")?;
    push_number(text, line)?;
    text.extend_from_slice(b"\n")?;
    Ok(())
}

fn push_number(text: &mut Vec<u8>, number: u32) -> Result<(), NoMemory>
    ensures { OnOk result (text.new.items ≡ text.old.items ++ decimal number) }
{
    text.extend_from_slice(Buffer::new().format(number).as_bytes())?;
    Ok(())
}
