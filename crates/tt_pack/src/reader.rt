//! Reads a stored tree, one token a call.
ghost use Rattle.std.specs.Prelude.{◌≡◌, ◌≤◌, ◌⊎◌, ◌↔◌, length, drop, MatchOption, IfSome, Some, None, []};
ghost use Rattle.tt_base.specs.Forest.{Forest, end, only};
ghost use Rattle.tt_tables.specs.Meaning.{HasAhead, IsAhead, top_bytes};
ghost use Rattle.tt_tables.specs.Stored.{bytes, packed as what_is_stored};
ghost use Rattle.tt_base.specs.Moves.{first_token, after_token, after_tree};
ghost use Rattle.tt_tables.proofs.StoredAlike.{HasAhead-prop};
ghost use Rattle.tt_tables.specs.Tables.{tables_from};
ghost use Rattle.tt_pack.specs.StoredIn.{bytes_for, bytes_in, tables_in, tables_stored};
ghost use Rattle.tt_pack.specs.TokenKinds.{GivesKind};

use crate::kind_reader::KindReader;
use crate::packed::Packed;
use crate::token_kind::TokenKind;
use crate::token_reader::TokenReader;
use tt_base::TokenTree;

// The offset of the top's header.
const TOP_HEADER: usize = 0;

/// The number of bytes of the top's header.
pub(crate) const TOP_BYTES: usize = 33;

/// An offset in the bytes of a stored tree, from which a caller reads token by token. A read decodes one token, takes no memory and makes
/// no search. A contract sees the trees ahead: at the start the whole tree, and after its header the trees below it.
#[derive(Clone, Copy)]
pub struct Reader<'a> {
    tree: Option<&'a Packed>,
    offset: usize,
    steps: u64,
    pub ghost ahead: { HasAhead (tables_in tree) (bytes_in tree) offset } by { HasAhead-prop (tables_in tree) (bytes_in tree) offset },
}

impl<'a> Reader<'a> {
    ghost use Rattle.tt_pack.specs.ReaderOf.{ahead_of, bytes_of, tables_of, offset_of, steps_of, StepsTo};

    /// Returns a reader before the whole tree.
    pub fn start(packed: &'a Packed) -> Reader<'a>
        ensures ahead { ahead_of result ≡ only packed.now }
        ensures bytes { bytes_of result ≡ (what_is_stored packed.now).bytes }
        ensures tables { tables_of result ≡ tables_from (what_is_stored packed.now).parts (what_is_stored packed.now).symbols }
        ensures offset { offset_of result ≡ 0 }
        ensures steps { steps_of result ≡ 0 }
    {
        // the contract of `bytes` says that the tree is within the limits, which the reader needs
        let _bytes = packed.bytes();
        Reader {
            tree: Some(packed),
            offset: TOP_HEADER,
            steps: 0,
        }
    }

    /// Returns a reader before the trees below the top. It does not decode the top's header, which always takes 33 bytes
    /// (docs/FORMATS.md).
    pub fn below_top(packed: &'a Packed) -> Reader<'a>
        ensures ahead { ahead_of result ≡ packed.now.children }
        ensures bytes { bytes_of result ≡ (what_is_stored packed.now).bytes }
        ensures tables { tables_of result ≡ tables_from (what_is_stored packed.now).parts (what_is_stored packed.now).symbols }
        ensures offset { offset_of result ≡ top_bytes }
        ensures left { drop top_bytes (bytes_of result) ≡ bytes (tables_of result) (ahead_of result) }
        ensures steps { steps_of result ≡ 0 }
    {
        // the contract of `bytes` says that the tree is within the limits, which the reader needs
        let _bytes = packed.bytes();
        Reader {
            tree: Some(packed),
            offset: TOP_BYTES,
            steps: 0,
        }
    }

    /// Returns a reader at an offset that a reader of this tree had, as `place` returned it.
    pub fn at(packed: &'a Packed, offset: usize) -> Reader<'a>
        requires { HasAhead (tables_stored packed.now) (bytes_for packed.now) offset }
        ensures ahead { (trees : Forest) → IsAhead (tables_stored packed.now) (bytes_for packed.now) offset trees → ahead_of result ≡ trees }
        ensures bytes { bytes_of result ≡ bytes_for packed.now }
        ensures tables { tables_of result ≡ tables_stored packed.now }
        ensures offset { offset_of result ≡ offset }
        ensures steps { steps_of result ≡ 0 }
    {
        Reader {
            tree: Some(packed),
            offset,
            steps: 0,
        }
    }

    /// Returns a reader at the end of no tree.
    pub fn empty() -> Reader<'a>
        ensures ahead { ahead_of result ≡ end }
        ensures bytes { bytes_of result ≡ [] }
        ensures tables { tables_of result ≡ tables_from [] [] }
        ensures offset { offset_of result ≡ 0 }
        ensures steps { steps_of result ≡ 0 }
    {
        Reader {
            tree: None,
            offset: 0,
            steps: 0,
        }
    }

    /// Returns the number of bytes that the reader passed: 0, or at least the 33 of the top's header.
    pub fn place(&self) -> usize
        ensures value { result ≡ offset_of self.now }
        ensures inside { result ≤ length (bytes_of self.now) }
        ensures top { (result ≡ 0) ⊎ (top_bytes ≤ result) }
    {
        self.offset
    }

    /// Returns how many tokens were decoded on the way to this place. The count stays at the largest `u64` once it is that.
    pub fn steps(&self) -> u64
        ensures { result ≡ steps_of self.now }
    {
        self.steps
    }

    /// Takes and returns the next token, or returns `None` at the end of the bytes. After a header come the tokens below it.
    #[inline(always)]
    pub fn advance(&mut self) -> Option<TokenTree>
        ensures token { result ≡ first_token (ahead_of self.old) }
        ensures end { (result ≡ None) ↔ (length (bytes_of self.old) ≤ offset_of self.old) }
        ensures moved { StepsTo self.old (after_token (ahead_of self.old)) self.new }
    {
        let tree = self.tree?;
        let mut tokens = TokenReader::new(tree);
        tokens.decode_here(self.offset);
        if tokens.token.is_some() {
            self.offset = tree.bytes().len() - tokens.left;
            self.steps = self.steps.saturating_add(1);
        }
        tokens.token
    }

    /// Takes the next tree. Returns its token and a second reader, which is before the tokens below that token, or `None` at the end of
    /// the bytes.
    #[inline(always)]
    pub fn advance_skip(&mut self) -> Option<(TokenTree, Reader<'a>)>
        ensures token { MatchOption result (first_token (ahead_of self.old) ≡ None) (λ found. first_token (ahead_of self.old) ≡ Some found.0) }
        ensures end { (result ≡ None) ↔ (length (bytes_of self.old) ≤ offset_of self.old) }
        ensures below { IfSome result (λ found. StepsTo self.old (after_token (ahead_of self.old)) found.1) }
        ensures moved { StepsTo self.old (after_tree (ahead_of self.old)) self.new }
    {
        let tree = self.tree?;
        let mut tokens = TokenReader::new(tree);
        tokens.decode_here(self.offset);
        let token = tokens.token?;
        self.steps = self.steps.saturating_add(1);
        let below = Reader {
            tree: self.tree,
            offset: tree.bytes().len() - tokens.left,
            steps: self.steps,
        };
        self.offset = below.offset + tokens.child_bytes;
        Some((token, below))
    }

    /// Takes the next tree. Returns what its token is and a second reader, as `advance_skip` does, but makes no token: it looks up no span
    /// and copies no symbol.
    #[inline(always)]
    pub fn advance_skip_kind(&mut self) -> Option<(TokenKind<'a>, Reader<'a>)>
        ensures token { MatchOption result (first_token (ahead_of self.old) ≡ None) (λ found. GivesKind (first_token (ahead_of self.old)) (Some found.0)) }
        ensures end { (result ≡ None) ↔ (length (bytes_of self.old) ≤ offset_of self.old) }
        ensures below { IfSome result (λ found. StepsTo self.old (after_token (ahead_of self.old)) found.1) }
        ensures moved { StepsTo self.old (after_tree (ahead_of self.old)) self.new }
    {
        let tree = self.tree?;
        let mut kinds = KindReader::new(tree);
        kinds.decode_here(self.offset);
        let kind = kinds.kind?;
        self.steps = self.steps.saturating_add(1);
        let below = Reader {
            tree: self.tree,
            offset: tree.bytes().len() - kinds.left,
            steps: self.steps,
        };
        self.offset = below.offset + kinds.child_bytes;
        Some((kind, below))
    }
}
