//! What a call returns to its caller.
ghost use Rattle.app_c.specs.Answers.{Gives, GivesBoth, Reports, ReportsBoth};

use crate::failure::Failure;
use crate::fault::Fault;
use crate::listing::Listing;

/// Copies the bytes into the caller's output, if there is room for all of them.
pub(crate) fn give(made: &[u8], out: &mut [u8], written: &mut usize, at: &mut usize) -> u32
    ensures { Gives made.now out.old out.new written.new at.new result }
{
    let len = made.len();
    *written = len;
    *at = 0;
    if len > out.len() {
        return Fault::NoRoom.number();
    }
    out[..len].copy_from_slice(made);
    0
}

/// Reports a fault to the caller.
pub(crate) fn tell(failure: Failure, written: &mut usize, at: &mut usize) -> u32
    ensures { Reports failure written.new at.new result }
{
    *written = 0;
    *at = failure.at;
    failure.fault.number()
}

/// Copies the bytes and the words into the caller's outputs, if there is room for all of them.
pub(crate) fn give_both(
    made: &Listing,
    out: &mut [u8],
    written: &mut usize,
    findings: &mut [usize],
    found: &mut usize,
    at: &mut usize,
) -> u32
    ensures { GivesBoth made.now.bytes.items made.now.words.items out.old out.new findings.old findings.new written.new found.new at.new result }
{
    let bytes = made.bytes.as_slice();
    let words = made.words.as_slice();
    *written = bytes.len();
    *found = words.len();
    *at = 0;
    if bytes.len() > out.len() || words.len() > findings.len() {
        return Fault::NoRoom.number();
    }
    out[..bytes.len()].copy_from_slice(bytes);
    findings[..words.len()].copy_from_slice(words);
    0
}
