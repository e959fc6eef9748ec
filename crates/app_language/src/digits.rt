//! Bytes that a line spells as hexadecimal digits.
ghost use Rattle.hex.specs.Hex.{IsBytes, encode_lower};
ghost use Rattle.hex.specs.declared.error.FromHexError.TheVariants.{OutOfMemory};
ghost use Rattle.std.specs.Cmp.{partial_equiv_from_equiv};
ghost use Rattle.std.specs.Cmp.Lexicographic.{nat_list_eq_equiv};
ghost use Rattle.std.specs.Prelude.{◌≡◌, ℕ, List, Ok, Err, None, bytes_eq, IfOk, IfErr};
ghost use Rattle.tt_base.specs.declared.fault.TtFault.TheVariants.{Memory};
ghost use Rattle.app_language.specs.Reading.{Reads};

use hex::FromHexError;
use std::alloc::Global;
use std::fmt;
use std::marker::Model;
use tt_base::TtFault;

/// Bytes, each spelled by a line as two lower-case hexadecimal digits. A contract sees the bytes.
#[derive(Drop)]
pub struct Digits {
    bytes: Vec<u8>,
}

impl Model for Digits {
    ghost Value = { List ℕ };

    ghost view = { λ digits. digits.bytes.items };
}

impl Digits {
    /// Reads the bytes that the text spells. Fails only if memory runs out.
    pub(crate) fn read(alloc: Global, text: &[u8]) -> Result<Option<Digits>, TtFault>
        ensures reads { IfOk result (Reads encode_lower IsBytes text.now) }
        ensures err { IfErr result (λ fault. fault ≡ Memory) }
    {
        let bytes = match hex::decode(alloc, text) {
            Ok(bytes) => bytes,
            Err(error) => return no_digits(error),
        };
        let again = hex::encode(alloc, bytes.as_slice())?;
        if again.as_bytes() != text {
            return Ok(None);
        }
        are_bytes(&bytes);
        Ok(Some(Digits { bytes }))
    }

    /// Returns the bytes, in order.
    pub fn as_slice(&self) -> &[u8]
        ensures { result.now ≡ self.now }
    {
        self.bytes.as_slice()
    }
}

// Each of them is a byte, which the type guarantees.
fn are_bytes(bytes: &[u8])
    ensures { IsBytes bytes.now }
{
    let _ = bytes;
}

// Returns the result for a text that was not decoded: nothing, unless memory ran out.
fn no_digits(error: FromHexError) -> Result<Option<Digits>, TtFault>
    ensures memory { error ≡ OutOfMemory → result ≡ Err Memory }
    ensures other { (error ≡ OutOfMemory → ⊥) → result ≡ Ok None }
{
    match error {
        FromHexError::OutOfMemory => Err(TtFault::Memory),
        _ => Ok(None),
    }
}

impl PartialEq for Digits {
    ghost eq = { bytes_eq };

    ghost laws = { partial_equiv_from_equiv nat_list_eq_equiv };

    fn eq(&self, other: &Digits) -> bool {
        self.as_slice() == other.as_slice()
    }
}

impl Eq for Digits {
    ghost laws = { nat_list_eq_equiv };
}

impl fmt::Debug for Digits {
    fn fmt<W: fmt::Write>(&self, f: &mut fmt::Formatter<W>) -> fmt::Result {
        f.debug_list().entries(self.as_slice()).finish()
    }
}
