//! The tokens of a text: the time of reading them, or each on a line.
ghost use Rattle.std.specs.Prelude.{◌<◌, ◌^◌, length};

use crate::error::BenchError;
use crate::reading::BETWEEN_TEXTS;
use crate::rounds::nanos_of_round;
use std::io::{BufWriter, Write};
use std::time::CpuClock;
use syntax_lex::{MOST_TEXT_BYTES, tokenize};

/// Times the rounds and prints a line: the nanoseconds of a round, the bytes of the text and its tokens. Or shows the tokens of each text,
/// a line for each token and a line `--` after each text.
pub fn run(rt: &HostRuntime, text: &str, rounds: Option<u32>) -> Result<(), BenchError> {
    match rounds {
        Some(rounds) => {
            if text.len() > MOST_TEXT_BYTES {
                return Err(BenchError::TooLong);
            }
            let begun = rt.thread_cpu_time()?;
            let mut tokens = 0;
            for _ in 0..rounds {
                tokens = count(text);
            }
            let nanos = nanos_of_round(begun, rt.thread_cpu_time()?, rounds);
            let bytes = text.len();
            println!(rt; "{nanos} {bytes} {tokens}")?;
        }
        None => {
            let mut out = BufWriter::new(rt.alloc(), rt.stdout())?;
            for part in text.split(BETWEEN_TEXTS) {
                show(&mut out, part)?;
                writeln!(out, "--")?;
            }
            out.flush()?;
        }
    }
    Ok(())
}

// Returns how many tokens a text has.
fn count(text: &str) -> u64
    requires { length text.now < 2 ^ 32 }
{
    let mut count = 0u64;
    for _token in tokenize(text) {
        count = count.wrapping_add(1);
    }
    count
}

// Writes the tokens of a text: the byte at which each begins, how many bytes it takes, and its kind.
fn show<W: Write>(out: &mut W, text: &str) -> Result<(), BenchError> {
    if text.len() > MOST_TEXT_BYTES {
        return Err(BenchError::TooLong);
    }
    let mut place = 0u64;
    for token in tokenize(text) {
        let len = token.len;
        let kind = token.kind;
        writeln!(out, "{place} {len} {kind:?}")?;
        place = place.wrapping_add(len as u64);
    }
    Ok(())
}
