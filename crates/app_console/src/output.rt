//! Bytes that are to be written, and wait.
ghost use Rattle.std.specs.Prelude.{◌≡◌, true, [], ℕ, List, OnOk, OnErr, IfErr};
ghost use Rattle.std.specs.Io.KnownBytes.{Appends, Keeps};
ghost use Rattle.app_console.specs.Noted.{noted_inner, noted_failed};
ghost use Rattle.app_console.specs.Output.{text_reported};

use crate::noted::Noted;
use crate::outcome::RunFault;
use std::alloc::Global;
use std::io::Write;
use std::marker::Model;

/// How many bytes are read at a time, and how many may be pending.
pub const BLOCK: usize = 64 * 1024;

/// The bytes that were put out but not written yet.
#[derive(Drop)]
pub struct Output {
    pending: Vec<u8>,
}

impl Model for Output {
    ghost Value = { List ℕ };

    ghost view = { λ o. o.pending.items };
}

impl Output {
    /// Returns an empty output.
    pub fn new(alloc: Global) -> Output
        ensures { result ≡ [] }
    {
        Output {
            pending: Vec::new(alloc),
        }
    }

    /// Puts the bytes out: they become pending, or are written after what is pending.
    pub fn put<W: Write>(&mut self, bytes: &[u8], writer: &mut Noted<W>) -> Result<(), RunFault>
        ensures reported { OnOk result (Appends
            (text_reported W.contents writer.old self.old) (text_reported W.contents writer.new self.new) bytes.now) }
        ensures sound { OnOk result (noted_failed writer.new ≡ noted_failed writer.old) }
        ensures failed { OnErr result (noted_failed writer.new ≡ true) }
        ensures kind { IfErr result (λ fault. fault ≡ RunFault.Write) }
    {
        let room = BLOCK.saturating_sub(self.pending.len());
        if bytes.len() <= room && self.pending.extend_from_slice(bytes).is_ok() {
            return Ok(());
        }
        self.write_out(writer)?;
        write(writer, bytes)
    }

    /// Writes what is pending, and flushes the writer.
    pub fn write_out<W: Write>(&mut self, writer: &mut Noted<W>) -> Result<(), RunFault>
        ensures written { OnOk result
            (Keeps (text_reported W.contents writer.old self.old) (W.contents (noted_inner writer.new))) }
        ensures empty { OnOk result (self.new ≡ []) }
        ensures sound { OnOk result (noted_failed writer.new ≡ noted_failed writer.old) }
        ensures failed { OnErr result (noted_failed writer.new ≡ true) }
        ensures kind { IfErr result (λ fault. fault ≡ RunFault.Write) }
    {
        write(writer, &self.pending)?;
        self.pending.clear();
        writer.flush().map_err(|_| RunFault::Write)
    }
}

fn write<W: Write>(writer: &mut Noted<W>, bytes: &[u8]) -> Result<(), RunFault>
    ensures written { OnOk result
        (Appends (W.contents (noted_inner writer.old)) (W.contents (noted_inner writer.new)) bytes.now) }
    ensures sound { OnOk result (noted_failed writer.new ≡ noted_failed writer.old) }
    ensures failed { OnErr result (noted_failed writer.new ≡ true) }
    ensures kind { IfErr result (λ fault. fault ≡ RunFault.Write) }
{
    writer.write_all(bytes).map_err(|_| RunFault::Write)
}
