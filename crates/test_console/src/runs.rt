//! Runs over readers and writers that fail; the texts of faults.
use crate::fakes::{FakeReader, FakeWriter, ReadFailure, WriteFailure};
use crate::holds::holds;
use app_console::{End, Noted, RunFault, run};
use mbe_rule::RuleFault;
use std::alloc::{AllocError, Global};
use std::io::ErrorKind;
use std::test::Fail;
use tt_base::TtFault;

// The first run of `docs/CONSOLE.md`.
const SCRIPT: &[u8] = b"item sub paren 0:0@0..1#0 0:0@3..4#0 2
item ident plain 0:0@1..2#0 a
item punct alone 0:0@2..3#0 ;
list 0
show 0
equal 0 0";

const ALL: &[u8] = b"ok\nok\nok\nok\n(a ;)\nyes\n";

// How many bytes the answers to the first lines have, by the number of line feeds that are read: 0 to 5.
const ANSWERED: [usize; 6] = [0, 3, 6, 9, 12, 18];

// How often a `FakeWriter` gets a write while SCRIPT is read byte by byte: it takes three bytes for each write.
const WRITES: u64 = 8;

// How often it is flushed: before each read, also the one at the end of the input, and at the end.
const FLUSHES: u64 = SCRIPT.len() as u64 + 2;

const NO_READ: ReadFailure = (0, ErrorKind::Other);

// The facts of a run over fakes after its end.
#[derive(Drop)]
struct Ran {
    ended: Result<End, RunFault>,
    // whether a read failed, and a write
    failed: (bool, bool),
    taken: Vec<u8>,
}

// Returns a run over the script, read byte by byte, and a writer, with these failures.
fn run_over(alloc: Global, read: ReadFailure, write: WriteFailure) -> Ran {
    let mut reader = Noted::new(FakeReader::new(SCRIPT, read));
    let mut writer = Noted::new(FakeWriter::new(alloc, write));
    let ended = run(alloc, &mut reader, &mut writer);
    Ran {
        ended,
        failed: (reader.failed(), writer.failed()),
        taken: writer.into_inner().into_taken(),
    }
}

// Returns whether a run without a failure answers all.
fn answers_all(alloc: Global, failure: WriteFailure) -> bool {
    let ran = run_over(alloc, NO_READ, failure);
    ran.ended == Ok(End::Clean) && ran.failed == (false, false) && ran.taken.as_slice() == ALL
}

#[test]
fn a_byte_at_a_time(rt: HostRuntime) -> Result<(), Fail> {
    holds(Ok(answers_all(rt.alloc(), WriteFailure::Never)))
}

// Returns how many line feeds precede the read after `given` bytes.
fn lines_before(given: usize) -> usize {
    let mut lines = 0usize;
    for byte in SCRIPT.iter().take(given) {
        if *byte == b'\n' {
            lines = lines.saturating_add(1);
        }
    }
    lines
}

// Returns the answers if the read after `given` bytes fails.
fn answered(given: usize) -> Option<&'static [u8]> {
    ALL.get(..*ANSWERED.get(lines_before(given))?)
}

// Returns whether a run answers the lines before the read that fails in that way, after `given` bytes.
fn read_fails(alloc: Global, given: usize, kind: ErrorKind) -> bool {
    let at = (given as u64).saturating_add(1);
    let ran = run_over(alloc, (at, kind), WriteFailure::Never);
    ran.ended == Err(RunFault::Read)
        && ran.failed == (true, false)
        && Some(ran.taken.as_slice()) == answered(given)
}

// Returns whether that holds for each read.
fn reads_fail(alloc: Global, kind: ErrorKind) -> bool {
    for given in 0..SCRIPT.len() + 1 {
        if !read_fails(alloc, given, kind) {
            return false;
        }
    }
    true
}

#[test]
fn each_read_fails(rt: HostRuntime) -> Result<(), Fail> {
    holds(Ok(reads_fail(rt.alloc(), ErrorKind::Other)))?;
    holds(Ok(reads_fail(rt.alloc(), ErrorKind::Interrupted)))
}

// Returns whether a run over a writer with that failure reports it, by its result and by `failed`, and loses no answer before it.
fn write_fails(alloc: Global, failure: WriteFailure) -> bool {
    let ran = run_over(alloc, NO_READ, failure);
    ran.ended == Err(RunFault::Write)
        && ran.failed == (false, true)
        && ALL.starts_with(ran.taken.as_slice())
}

// Returns whether that holds for each write.
fn writes_fail(alloc: Global) -> bool {
    for at in 1..WRITES + 1 {
        if !write_fails(alloc, WriteFailure::Error(at))
            || !write_fails(alloc, WriteFailure::NoByte(at))
        {
            return false;
        }
    }
    true
}

#[test]
fn each_write_fails(rt: HostRuntime) -> Result<(), Fail> {
    holds(Ok(writes_fail(rt.alloc())))
}

// Returns whether that holds for each flush.
fn flushes_fail(alloc: Global) -> bool {
    for at in 1..FLUSHES + 1 {
        if !write_fails(alloc, WriteFailure::Flush(at)) {
            return false;
        }
    }
    true
}

#[test]
fn each_flush_fails(rt: HostRuntime) -> Result<(), Fail> {
    holds(Ok(flushes_fail(rt.alloc())))
}

// Returns whether no write and no flush comes after those.
fn are_all(alloc: Global) -> bool {
    answers_all(alloc, WriteFailure::Error(WRITES + 1))
        && answers_all(alloc, WriteFailure::NoByte(WRITES + 1))
        && answers_all(alloc, WriteFailure::Flush(FLUSHES + 1))
}

#[test]
fn no_call_is_left_to_fail(rt: HostRuntime) -> Result<(), Fail> {
    holds(Ok(are_all(rt.alloc())))
}

// Returns whether the fault's number and its text are these.
fn is_told_as(alloc: Global, fault: RuleFault, text: &str) -> Result<bool, AllocError> {
    Ok(format!(in alloc; "{} {fault}", fault.number())?.as_str() == text)
}

const RULE_FAULTS: [(RuleFault, &str); 5] = [
    (RuleFault::BadPattern, "1 bad pattern"),
    (RuleFault::BadTemplate, "2 bad template"),
    (RuleFault::DuplicateName, "3 duplicate name"),
    (RuleFault::UnknownName, "4 unknown name"),
    (RuleFault::Memory, "5 out of memory"),
];

// Returns whether each fault of a rule has that text.
fn are_rule_faults(alloc: Global) -> Result<bool, TtFault> {
    for (fault, text) in &RULE_FAULTS {
        if !is_told_as(alloc, *fault, text)? {
            return Ok(false);
        }
    }
    Ok(true)
}

#[test]
fn rule_fault_texts(rt: HostRuntime) -> Result<(), Fail> {
    holds(are_rule_faults(rt.alloc()))
}

// Returns whether the faults of a run have that text.
fn are_run_faults(alloc: Global) -> Result<bool, TtFault> {
    let (read, write) = (RunFault::Read, RunFault::Write);
    let told = format!(in alloc; "{read}, {write}, {}", RunFault::Memory)?;
    Ok(told.as_str() == "read failed, write failed, out of memory")
}

#[test]
fn fault_texts(rt: HostRuntime) -> Result<(), Fail> {
    holds(are_run_faults(rt.alloc()))
}
