//! The loop that reads lines and answers them.
ghost use Rattle.std.specs.Prelude.{◌≡◌, ◌^◌, ◌<◌, ◌++◌, ◌∷◌, ◌↔◌, [], true, false, IsTrue, OnOk, OnErr, IfOk, IfErr, MatchOption};
ghost use Rattle.std.specs.Io.KnownBytes.{Keeps};
ghost use Rattle.app_console.specs.Noted.{noted_inner, noted_failed};
ghost use Rattle.app_console.specs.Output.{text_reported};
ghost use Rattle.app_console.specs.Progress.{Progress, fresh, progress_code};
ghost use Rattle.app_language.specs.Command.{IsNoCommand, StandsFor};
ghost use Rattle.app_language.specs.Reading.{IsOneLine};
ghost use Rattle.app_console.specs.Run.{Reports, Fails};
ghost use Rattle.app_console.specs.Session.{Answers, Feeds, Finishes};
ghost use Rattle.app_console.specs.Stage.{stage_of};

use crate::answer::Answer;
use crate::machine::Machine;
use crate::noted::Noted;
use crate::outcome::{End, RunFault};
use crate::output::{BLOCK, Output};
use app_language::{Command, Texts};
use memchr::memchr;
use std::alloc::Global;
use std::io::{Read, Write};
use std::marker::Model;
use std::mem;
use tt_base::TtFault;

// The machine, the line that began in an earlier block, the number of lines answered, the
// answers, and the texts of the lines, which all lines share.
#[derive(Drop)]
struct Session {
    machine: Machine,
    begun: Vec<u8>,
    count: u64,
    output: Output,
    texts: Texts,
    alloc: Global,
}

impl Model for Session {
    ghost Value = { Progress };

    ghost coded = { progress_code };

    ghost view = { λ s. record {
      machine = s.machine;
      begun = s.begun.items;
      count = s.count;
      pending = s.output;
    } };
}

impl Session {
    fn new(alloc: Global) -> Session
        ensures { result ≡ fresh }
    {
        Session {
            machine: Machine::new(alloc),
            begun: Vec::new(alloc),
            count: 0,
            output: Output::new(alloc),
            texts: Texts::shared(alloc),
            alloc,
        }
    }

    // Returns whether no line has begun.
    fn is_between_lines(&self) -> bool
        ensures { IsTrue result ↔ (self.now.begun ≡ []) }
    {
        self.begun.is_empty()
    }

    // Adds the bytes to the line that has begun.
    fn keep(&mut self, bytes: &[u8]) -> Result<(), RunFault>
        ensures ok { OnOk result (self.new ≡ record self.old { begun = self.old.begun ++ bytes.now }) }
        ensures err { OnErr result (self.new ≡ self.old) }
        ensures kind { IfErr result (λ fault. fault ≡ RunFault.Memory) }
    {
        self.begun.extend_from_slice(bytes)?;
        Ok(())
    }

    // Writes what is pending.
    fn write_out<W: Write>(&mut self, writer: &mut Noted<W>) -> Result<(), RunFault>
        ensures written { OnOk result
            (Keeps (text_reported W.contents writer.old self.old.pending) (W.contents (noted_inner writer.new))) }
        ensures empty { OnOk result (self.new ≡ record self.old { pending = [] }) }
        ensures same { self.new ≡ record self.old { pending = self.new.pending } }
        ensures sound { OnOk result (noted_failed writer.new ≡ noted_failed writer.old) }
        ensures failed { OnErr result (noted_failed writer.new ≡ true) }
        ensures kind { IfErr result (λ fault. fault ≡ RunFault.Write) }
    {
        self.output.write_out(writer)
    }

    // Answers the line. If it is no command, says so and returns its number.
    fn answer<W: Write>(
        &mut self,
        line: &[u8],
        writer: &mut Noted<W>,
    ) -> Result<Option<u64>, RunFault>
        requires one_line { IsOneLine line.now }
        requires sound { noted_failed writer.old ≡ false }
        ensures answers { Answers
            (stage_of W.contents self.old writer.old) line.now result
            (stage_of W.contents self.new writer.new) }
        ensures begun { self.new.begun ≡ self.old.begun }
    {
        let number = self.count.saturating_add(1);
        let Some(command) = command_of(&mut self.texts, line)? else {
            let text = format!(in self.alloc; "bad line {number}\n")?;
            self.output.put(text.as_bytes(), writer)?;
            return Ok(Some(number));
        };
        let answer = self.machine.step(command);
        self.output.put(answer.as_bytes(), writer)?;
        self.count = number;
        Ok(None)
    }

    // Answers the line that has begun.
    fn answer_begun<W: Write>(&mut self, writer: &mut Noted<W>) -> Result<Option<u64>, RunFault>
        requires one_line { IsOneLine self.old.begun }
        requires sound { noted_failed writer.old ≡ false }
        ensures answers { Answers
            (stage_of W.contents self.old writer.old) self.old.begun result
            (stage_of W.contents self.new writer.new) }
        ensures begun { self.new.begun ≡ [] }
    {
        let line = mem::replace(&mut self.begun, Vec::new(self.alloc));
        self.answer(&line, writer)
    }

    // Answers the line that ends with these bytes.
    fn end_line<W: Write>(
        &mut self,
        bytes: &[u8],
        writer: &mut Noted<W>,
    ) -> Result<Option<u64>, RunFault>
        requires begun { IsOneLine self.old.begun }
        requires one_line { IsOneLine bytes.now }
        requires sound { noted_failed writer.old ≡ false }
        ensures { Feeds
            (stage_of W.contents self.old writer.old) (bytes.now ++ 10 ∷ []) result
            (stage_of W.contents self.new writer.new) }
    {
        if self.is_between_lines() {
            return self.answer(bytes, writer);
        }
        self.keep(bytes)?;
        self.answer_begun(writer)
    }

    // Answers each line that ends in these bytes, and keeps the rest as a begun line.
    fn feed<W: Write>(
        &mut self,
        bytes: &[u8],
        writer: &mut Noted<W>,
    ) -> Result<Option<u64>, RunFault>
        requires begun { IsOneLine self.old.begun }
        requires counted { self.old.count < 2 ^ 64 }
        requires sound { noted_failed writer.old ≡ false }
        ensures { Feeds
            (stage_of W.contents self.old writer.old) bytes.now result
            (stage_of W.contents self.new writer.new) }
    {
        let mut rest = bytes;
        'lines: while let Some(end) = memchr(b'\n', rest) {
            if let Some(number) = self.end_line(&rest[..end], writer)? {
                return Ok(Some(number));
            }
            rest = &rest[end + 1..];
        }
        self.keep(rest)?;
        Ok(None)
    }

    // Answers the line that has begun, at the end of the input.
    fn finish<W: Write>(&mut self, writer: &mut Noted<W>) -> Result<End, RunFault>
        requires begun { IsOneLine self.old.begun }
        requires sound { noted_failed writer.old ≡ false }
        ensures { Finishes
            (stage_of W.contents self.old writer.old) result
            (stage_of W.contents self.new writer.new) }
    {
        if self.is_between_lines() {
            return Ok(End::Clean);
        }
        match self.answer_begun(writer)? {
            Some(number) => Ok(End::BadLine(number)),
            None => Ok(End::Clean),
        }
    }

    // Answers the lines of the reader, until they end or one is no command. The last answers may be pending.
    fn answer_all<R: Read, W: Write>(
        &mut self,
        reader: &mut Noted<R>,
        writer: &mut Noted<W>,
    ) -> Result<End, RunFault>
        requires fresh { self.old ≡ fresh }
        requires reader_sound { noted_failed reader.old ≡ false }
        requires writer_sound { noted_failed writer.old ≡ false }
        ensures reports { Reports result
            (R.remaining (noted_inner reader.old)) (R.remaining (noted_inner reader.new))
            (W.contents (noted_inner writer.old)) (text_reported W.contents writer.new self.new.pending) }
        ensures fails { Fails result (noted_failed reader.new) (noted_failed writer.new) }
    {
        let mut block = [0u8; BLOCK];
        'reading: loop {
            self.write_out(writer)?;
            let Ok(n) = reader.read(&mut block) else {
                return Err(RunFault::Read);
            };
            if n == 0 {
                return self.finish(writer);
            }
            if let Some(number) = self.feed(&block[..n], writer)? {
                return Ok(End::BadLine(number));
            }
        }
    }

    // The same, but no answer is pending afterwards, except after a failed write.
    fn answer_and_write<R: Read, W: Write>(
        &mut self,
        reader: &mut Noted<R>,
        writer: &mut Noted<W>,
    ) -> Result<End, RunFault>
        requires fresh { self.old ≡ fresh }
        requires reader_sound { noted_failed reader.old ≡ false }
        requires writer_sound { noted_failed writer.old ≡ false }
        ensures reports { Reports result
            (R.remaining (noted_inner reader.old)) (R.remaining (noted_inner reader.new))
            (W.contents (noted_inner writer.old)) (W.contents (noted_inner writer.new)) }
        ensures fails { Fails result (noted_failed reader.new) (noted_failed writer.new) }
    {
        let ended = self.answer_all(reader, writer);
        if ended == Err(RunFault::Write) {
            return ended;
        }
        self.write_out(writer)?;
        ended
    }
}

// Returns the command that the line spells, if there is one. Fails only if memory runs out.
#[inline(always)]
fn command_of(texts: &mut Texts, line: &[u8]) -> Result<Option<Command>, RunFault>
    requires one_line { IsOneLine line.now }
    ensures reads { IfOk result (λ found. MatchOption found (IsNoCommand line.now) (StandsFor line.now)) }
    ensures kind { IfErr result (λ fault. fault ≡ RunFault.Memory) }
{
    match Command::parse_with(texts, line) {
        Ok(found) => Ok(found),
        Err(fault) => {
            prove!(fault == TtFault::Memory);
            Err(RunFault::Memory)
        }
    }
}

/// Answers the lines of the reader, until they end or one is no command. Writes all answers and flushes the writer before each read and
/// before it returns, except after a failed write. Neither the reader nor the writer may have failed before, as `Noted::failed` says; new
/// ones have not.
pub fn run<R: Read, W: Write>(
    alloc: Global,
    reader: &mut Noted<R>,
    writer: &mut Noted<W>,
) -> Result<End, RunFault>
    requires reader_sound { noted_failed reader.old ≡ false }
    requires writer_sound { noted_failed writer.old ≡ false }
    ensures reports { Reports result
        (R.remaining (noted_inner reader.old)) (R.remaining (noted_inner reader.new))
        (W.contents (noted_inner writer.old)) (W.contents (noted_inner writer.new)) }
    ensures fails { Fails result (noted_failed reader.new) (noted_failed writer.new) }
{
    let mut session = Session::new(alloc);
    session.answer_and_write(reader, writer)
}
