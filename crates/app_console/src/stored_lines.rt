//! The stored bytes, span parts and symbols of a tree, in lines.
ghost use Rattle.hex.specs.Hex.{encode_lower};
ghost use Rattle.std.specs.Prelude.{◌≡◌, IfOk, string_bytes};
ghost use Rattle.std.specs.List.{flat_map};
ghost use Rattle.tt.specs.Stored.{packed};
ghost use Rattle.app_console.specs.Answer.{line};
ghost use Rattle.app_console.specs.ViewText.{hex_pair, listed, part_text};

use std::alloc::{AllocError, Global};
use tt::TopSubtree;

/// Returns the bytes, two hexadecimal digits each, on one line.
pub(crate) fn stored_bytes(alloc: Global, tree: &TopSubtree) -> Result<String, AllocError>
    ensures { IfOk result (λ text. string_bytes text ≡ line (flat_map hex_pair (packed tree.now).bytes)) }
{
    let mut text = String::new(alloc);
    for byte in tree.packed_bytes() {
        write!(text, "{byte:02x}")?;
    }
    text.push_str("\n")?;
    Ok(text)
}

/// Returns bytes, two hexadecimal digits each, on one line.
pub(crate) fn digits_line(alloc: Global, bytes: &[u8]) -> Result<String, AllocError>
    ensures { IfOk result (λ text. string_bytes text ≡ line (encode_lower bytes.now)) }
{
    let mut text = hex::encode(alloc, bytes)?;
    text.push_str("\n")?;
    Ok(text)
}

/// Returns the span parts, one per line.
pub(crate) fn part_lines(alloc: Global, tree: &TopSubtree) -> Result<String, AllocError>
    ensures { IfOk result (λ text. string_bytes text ≡ listed part_text (packed tree.now).parts) }
{
    let mut text = String::new(alloc);
    for part in tree.span_part_table() {
        let (file, ast, ctx) = (part.anchor.file_id.0, part.anchor.ast_id.0, part.ctx.0);
        writeln!(text, "{file}:{ast}#{ctx}")?;
    }
    text.push_str("end\n")?;
    Ok(text)
}

/// Returns the symbols, one per line.
pub(crate) fn symbol_lines(alloc: Global, tree: &TopSubtree) -> Result<String, AllocError>
    ensures { IfOk result (λ text. string_bytes text ≡ listed (λ symbol. symbol) (packed tree.now).symbols) }
{
    let mut text = String::new(alloc);
    for symbol in tree.symbol_table() {
        writeln!(text, "{symbol}")?;
    }
    text.push_str("end\n")?;
    Ok(text)
}
