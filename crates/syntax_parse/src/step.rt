//! Takes one token after the other.
ghost use Rattle.std.specs.Prelude.{◌≡◌, ◌+◌, ◌^◌, ◌<◌, ◌++◌, Ok, Err, length, reverse, IfErr, IfOk, MatchOption, ⊤};
ghost use Rattle.tt_base.specs.Building.{open_kinds};
ghost use Rattle.syntax_parse.specs.Faults.{kinds_of, step};
ghost use Rattle.syntax_parse.specs.Limits.{IsAddFault};
ghost use Rattle.syntax_parse.specs.Pieces.{pieces_of};
ghost use Rattle.syntax_parse.specs.Role.{role_in};
ghost use Rattle.syntax_parse.specs.Scanned.{IsScanned};
ghost use Rattle.syntax_parse.specs.declared.role.Role.TheVariants.{Leaf};
ghost use Rattle.syntax_parse.specs.Spelled.{spelled_so_far};

use crate::add::{Placed, add_leaves};
use crate::bracket::same_bracket;
use crate::fault::{Open, SyntaxFault};
use crate::leaves::span_at;
use crate::role::{Role, role_in};
use tt::FlatBuilder;
use tt_base::{SpanPart, Texts, TtFault};

/// Takes one token and adds its pieces to the end of the builder, or returns why the token cannot be there.
pub fn take(
    texts: &mut Texts,
    builder: &mut FlatBuilder,
    opens: &mut Vec<Open>,
    part: SpanPart,
    token: Placed,
) -> Result<Option<SyntaxFault>, TtFault>
    requires some { 0 < length token.text.now }
    requires fits { token.at + length token.text.now < 2 ^ 32 }
    requires same { kinds_of (reverse opens.old.items) ≡ open_kinds builder.old.stack }
    requires scan { role_in token.kind token.text.now ≡ Leaf → IsScanned token.kind token.text.now }
    ensures fault { IfOk result (λ fault. MatchOption fault
        (step (reverse opens.old.items) token.entry.at token.entry.kind token.entry.text.now ≡ Ok (reverse opens.new.items))
        (λ it. step (reverse opens.old.items) token.entry.at token.entry.kind token.entry.text.now ≡ Err it)) }
    ensures same { IfOk result (λ fault. MatchOption fault
        (kinds_of (reverse opens.new.items) ≡ open_kinds builder.new.stack) (λ _. ⊤)) }
    ensures holds { IfOk result (λ fault. MatchOption fault
        (spelled_so_far builder.new.stack ≡ spelled_so_far builder.old.stack ++ pieces_of part token.entry.kind token.entry.next token.entry.at token.entry.text.now) (λ _. ⊤)) }
    ensures err { IfErr result (IsAddFault (pieces_of part token.entry.kind token.entry.next token.entry.at token.entry.text.now) builder.old) }
    ensures top { IfOk result (λ _. builder.new.top ≡ builder.old.top) }
{
    let at = token.at;
    match role_in(token.kind, token.text) {
        Role::Bad(why) => Ok(Some(SyntaxFault::BadToken { why, at })),
        Role::Nothing => Ok(None),
        Role::Leaf => {
            add_leaves(texts, builder, part, token)?;
            Ok(None)
        }
        Role::Opens(bracket) => {
            let span = span_at(part, at, at + token.text.len() as u32);
            builder.open(bracket.kind(), span)?;
            opens.push(Open { bracket, at })?;
            Ok(None)
        }
        Role::Closes(bracket) => match opens.pop() {
            None => Ok(Some(SyntaxFault::Unopened { bracket, at })),
            Some(open) => {
                if !same_bracket(open.bracket, bracket) {
                    return Ok(Some(SyntaxFault::Mismatched { bracket, at, open }));
                }
                let span = span_at(part, at, at + token.text.len() as u32);
                builder.close(span);
                Ok(None)
            }
        },
    }
}
