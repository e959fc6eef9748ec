//! The text of a file.
ghost use Rattle.std.specs.Prelude.{◌≡◌, IfOk, IfErr};
ghost use Rattle.std.specs.Str.{chars};
ghost use Rattle.std.specs.Str.Lossy.{utf8_valid_len};
ghost use Rattle.syntax_diagnostic.specs.Source.{without_mark};

use syntax_lex::split_first;

// Returns a text without a byte order mark at the front.
fn without_mark(text: &str) -> &str
    ensures { chars result.now ≡ without_mark (chars text.now) }
{
    match split_first(text) {
        Some((first, rest)) => { if first == '\u{feff}' { rest } else { text } }
        None => text,
    }
}

/// Returns the text of these bytes, without a byte order mark at the front. If they are not UTF-8, returns the number of bytes that are,
/// which is the place of the first that is not.
pub fn source_text(bytes: &[u8]) -> Result<&str, usize>
    ensures ok { IfOk result (λ text. chars text.now ≡ without_mark (chars bytes.now)) }
    ensures err { IfErr result (λ at. at ≡ utf8_valid_len bytes.now) }
{
    match str::from_utf8(bytes) {
        Ok(text) => Ok(without_mark(text)),
        Err(error) => Err(error.valid_up_to()),
    }
}
