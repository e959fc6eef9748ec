//! Where the tokens of trees are in the source that they were read from.
use crate::beside::{byte_at, part};
use std::alloc::{AllocError, Global};
use syntax_edit::{end_of, start_of};
use tt_base::{DelimiterKind, Ident, IdentIsRaw, Leaf, Span, Subtree, TokenTree};
use tt_view::TokenTreesView;

/// Where a token is in a source: the bytes from a place to another.
#[derive(Debug, Clone, Copy, PartialEq, Eq)]
pub struct Place {
    /// Its first byte.
    pub start: u32,
    /// The byte after its last.
    pub end: u32,
}

/// A token that is written.
#[derive(Clone, Copy)]
pub struct Written {
    /// Where it is in the source.
    pub place: Option<Place>,
    /// How many bytes it has; 0 if that is not known.
    pub len: u32,
}

// A subtree that was entered.
#[derive(Drop)]
struct Level {
    // How many tokens come before what follows it.
    end: usize,
    // Whether it is written in brackets, and where the closing one is.
    is_shown: bool,
    close: Option<Place>,
}

// A walk through trees, with the places so far.
#[derive(Drop)]
struct Walk<'s> {
    source: &'s str,
    all: Vec<Written>,
    levels: Vec<Level>,
    // The end of the innermost level.
    end: usize,
    // How many tokens were passed.
    passed: usize,
    // The first byte of the `'` of a lifetime.
    quote: Option<u32>,
    // The level of an opaque subtree of which no tree was passed. It has brackets only if it holds several trees.
    undecided: Option<usize>,
}

// Returns the place of a span.
fn place_of(span: Span) -> Place {
    Place {
        start: start_of(span),
        end: end_of(span),
    }
}

// Returns how many tokens a tree has that begins with this one.
fn tokens_of(token: &TokenTree) -> usize {
    match token {
        TokenTree::Leaf(_leaf) => 1,
        TokenTree::Subtree(subtree) => subtree.usize_len().saturating_add(1),
    }
}

// Returns whether a source has a byte at a place.
fn is_sign(source: &str, place: Place, sign: u8) -> bool {
    byte_at(source, place.start as usize) == Some(sign)
}

// Returns whether a source has a punct at a place.
fn is_punct(source: &str, place: Place, punct: char) -> bool {
    byte_at(source, place.start as usize).is_some_and(|byte| char::from(byte) == punct)
}

// Returns whether a source has an ident at a place.
fn is_ident(source: &str, place: Place, ident: &Ident) -> bool {
    let found = part(source, place.start as usize, place.end as usize);
    match ident.is_raw {
        IdentIsRaw::No => found == ident.sym.as_str(),
        IdentIsRaw::Yes => found.strip_prefix("r#") == Some(ident.sym.as_str()),
    }
}

// Returns how many bytes an ident has; 0 if these are too many.
fn len_of(ident: &Ident) -> u32 {
    let raw = ident.is_raw.as_str().len();
    u32::try_from(raw.saturating_add(ident.sym.as_str().len())).unwrap_or(0)
}

// Returns how many bytes a character has.
fn len_of_char(char: char) -> u32 {
    u32::try_from(char.len_utf8()).unwrap_or(0)
}

// Returns the signs of brackets.
fn signs_of(kind: DelimiterKind) -> Option<(u8, u8)> {
    match kind {
        DelimiterKind::Parenthesis => Some((b'(', b')')),
        DelimiterKind::Brace => Some((b'{', b'}')),
        DelimiterKind::Bracket => Some((b'[', b']')),
        DelimiterKind::Invisible | DelimiterKind::InvisibleOpaque => None,
    }
}

// Returns whether a token begins a subtree that counts as the trees in it.
fn is_invisible(token: &TokenTree) -> bool {
    match token {
        TokenTree::Leaf(_leaf) => false,
        TokenTree::Subtree(subtree) => matches!(subtree.delimiter.kind, DelimiterKind::Invisible),
    }
}

impl<'s> Walk<'s> {
    // Returns a place, if the source has the token there, or a comment that the token comes from.
    #[inline(always)]
    fn checked(&self, place: Place, is_there: bool) -> Option<Place> {
        if is_there {
            Some(place)
        } else {
            self.comment_at(place)
        }
    }

    // Returns a place, if the source has a comment there. A carriage return at its end belongs to the end of its line.
    #[inline(never)]
    fn comment_at(&self, place: Place) -> Option<Place> {
        let found = part(self.source, place.start as usize, place.end as usize);
        if found.starts_with("/*") {
            return Some(place);
        }
        if !found.starts_with("//") {
            return None;
        }
        let returns = if found.ends_with('\r') { 1 } else { 0 };
        Some(Place {
            start: place.start,
            end: place.end.saturating_sub(returns),
        })
    }

    // Adds a bracket.
    fn push_bracket(&mut self, place: Option<Place>) -> Result<(), AllocError> {
        self.all.push(Written { place, len: 1 })?;
        Ok(())
    }

    // Leaves the subtrees that hold no further token.
    #[inline(always)]
    fn leave(&mut self) -> Result<(), AllocError> {
        if self.passed < self.end {
            return Ok(());
        }
        self.leave_levels()
    }

    // Leaves the innermost levels, up to one that holds a further token.
    #[inline(never)]
    fn leave_levels(&mut self) -> Result<(), AllocError> {
        for _ in 0..self.levels.len() {
            let Some(level) = self.levels.last() else {
                return Ok(());
            };
            let (end, is_shown, close) = (level.end, level.is_shown, level.close);
            self.end = end;
            if self.passed < end {
                return Ok(());
            }
            if is_shown {
                self.push_bracket(close)?;
            }
            let _level = self.levels.pop();
            if self.undecided == Some(self.levels.len()) {
                self.undecided = None;
            }
        }
        self.end = usize::MAX;
        Ok(())
    }

    // Decides whether the undecided subtree has brackets, by its first token that is not invisible.
    fn decide(&mut self, token: &TokenTree) -> Result<(), AllocError> {
        let Some(number) = self.undecided else {
            return Ok(());
        };
        if is_invisible(token) {
            return Ok(());
        }
        self.undecided = None;
        let first_end = self.passed.saturating_add(tokens_of(token));
        let Some(level) = self.levels.get_mut(number) else {
            return Ok(());
        };
        if first_end < level.end {
            level.is_shown = true;
            self.push_bracket(None)?;
        }
        Ok(())
    }

    // Enters a subtree.
    fn enter(&mut self, subtree: &Subtree) -> Result<(), AllocError> {
        let kind = subtree.delimiter.kind;
        let mut close = None;
        let signs = signs_of(kind);
        if let Some((opening, closing)) = signs {
            let place = place_of(subtree.delimiter.open_span);
            let open = self.checked(place, is_sign(self.source, place, opening));
            self.push_bracket(open)?;
            let place = place_of(subtree.delimiter.close);
            close = self.checked(place, is_sign(self.source, place, closing));
        }
        if matches!(kind, DelimiterKind::InvisibleOpaque) {
            self.undecided = Some(self.levels.len());
        }
        self.end = self.passed.saturating_add(subtree.usize_len());
        self.levels.push(Level {
            end: self.end,
            is_shown: signs.is_some(),
            close,
        })?;
        Ok(())
    }

    // Adds a leaf; a `'` waits for the name of its lifetime.
    fn add(&mut self, leaf: &Leaf) -> Result<(), AllocError> {
        let place = place_of(*leaf.span());
        let (is_there, len) = match leaf {
            Leaf::Punct(punct) => {
                if punct.char == '\'' {
                    self.quote = Some(place.start);
                    return Ok(());
                }
                (
                    is_punct(self.source, place, punct.char),
                    len_of_char(punct.char),
                )
            }
            Leaf::Ident(ident) => (is_ident(self.source, place, ident), len_of(ident)),
            // (a literal that begins with `/` comes from a comment)
            Leaf::Literal(_literal) => (
                byte_at(self.source, place.start as usize).is_some_and(|byte| byte != b'/'),
                0,
            ),
        };
        let checked = self.checked(place, is_there);
        let Some(start) = self.quote else {
            self.all.push(Written {
                place: checked,
                len,
            })?;
            return Ok(());
        };
        self.quote = None;
        self.all.push(Written {
            place: match checked {
                Some(place) => Some(Place {
                    start,
                    end: place.end,
                }),
                None => None,
            },
            len: len.saturating_add(1),
        })?;
        Ok(())
    }

    // Passes a token.
    fn pass(&mut self, token: &TokenTree) -> Result<(), AllocError> {
        self.leave()?;
        self.decide(token)?;
        self.passed = self.passed.saturating_add(1);
        match token {
            TokenTree::Leaf(leaf) => self.add(leaf),
            TokenTree::Subtree(subtree) => self.enter(subtree),
        }
    }
}

/// Returns each token that `rust_text` writes of trees, with its place as the spans say. Parentheses that it adds around an opaque subtree
/// have none, nor has a bracket, a punct or an ident if the source has another token there.
pub fn written_of(
    alloc: Global,
    source: &str,
    trees: TokenTreesView<'_>,
) -> Result<Vec<Written>, AllocError> {
    let mut walk = Walk {
        source,
        // (a subtree is written as two brackets at most)
        all: Vec::with_capacity(alloc, trees.len().saturating_mul(2))?,
        levels: Vec::new(alloc),
        end: usize::MAX,
        passed: 0,
        quote: None,
        undecided: None,
    };
    for token in trees.iter_flat_tokens() {
        walk.pass(&token)?;
    }
    walk.leave()?;
    Ok(walk.all)
}
