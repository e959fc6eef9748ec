//! The templates in a source, and the repetitions in them.
use crate::beside::{
    MOST_GAP, begins_line, blank_end, breaks, byte_before, indentation, part, space_end,
    space_start, tokens,
};
use crate::kinds::is_blank;
use memchr::memmem;
use std::alloc::{AllocError, Global};
use syntax_lex::{Token, TokenKind};

/// A template of a macro.
#[derive(Clone, Copy)]
pub struct Template {
    /// The byte after its opening bracket.
    pub start: usize,
    /// Its closing bracket.
    pub end: usize,
    /// Its first comment that documents nothing, if one is before its first token, or else that token.
    pub comment: usize,
    /// Its first token.
    pub first: usize,
    /// The byte after its last token.
    pub last: usize,
    /// The byte after the comments behind its last token, which document nothing; that after this token if there are none.
    pub closing: usize,
    /// How many bytes of white space the line of its first token begins with, beyond those that `deeper_at` counts.
    pub indent: usize,
    /// The template around it.
    pub outer: Option<usize>,
}

/// A place from which on the source is in another template, or in none.
#[derive(Clone, Copy)]
pub(crate) struct Border {
    pub start: usize,
    pub number: Option<usize>,
}

/// A repetition: `$(..)` with its separator and its operator.
#[derive(Clone, Copy)]
pub struct Repetition {
    /// Its `$`.
    pub start: usize,
    /// The byte after its opening bracket.
    pub inner: usize,
    /// Its first token.
    pub first: usize,
    /// Its closing bracket.
    pub close: usize,
    /// The byte after its operator.
    pub end: usize,
    /// Whether it begins with a line break.
    pub breaks: bool,
    /// Whether each round has several lines, of which the last ends with a `}` or a `;`.
    pub has_lines: bool,
    /// How many bytes its lines are further indented than that of the outermost repetition around it, as far as these begin their lines.
    pub deeper: usize,
    /// How many bytes its rounds are further indented than its `$`, if that is no further indented than the line of the bracket around it.
    pub beyond: usize,
    /// The repetition around it.
    pub outer: Option<usize>,
}

/// The templates of a source in the order of their opening brackets, and all repetitions in the order of their `$`.
#[derive(Drop)]
pub struct Templates {
    pub templates: Vec<Template>,
    /// Where templates begin and end, in order; none if no template is in another one.
    pub(crate) borders: Vec<Border>,
    pub repetitions: Vec<Repetition>,
    /// The numbers of the repetitions in the order of their closing brackets.
    pub closed: Vec<usize>,
    /// Whether a template has comments behind its last token.
    pub have_closing: bool,
}

// The latest tokens, as far as they say what a bracket opens.
#[derive(Clone, Copy, PartialEq, Eq)]
enum Latest {
    // `$`
    Dollar,
    // `=`
    Equals,
    // `=>`
    Arrow,
    // `macro_rules`, with a `!` and a name behind it
    Rules,
    RulesBang,
    RulesName,
    Other,
}

// What a bracket opened.
#[derive(Clone, Copy, PartialEq, Eq)]
enum Opened {
    Rules,
    Template(usize),
    Repetition(usize),
    // another bracket, at this place
    Other(usize),
}

#[derive(Drop)]
struct Reader<'s> {
    source: &'s str,
    found: Templates,
    latest: Latest,
    opened: Vec<Opened>,
    // The innermost open repetition.
    innermost: Option<usize>,
    // The repetition that was closed last, if its operator is to come.
    closed: Option<usize>,
    // The templates that are open.
    inside: Vec<usize>,
    // Whether a template is in another one.
    has_inner: bool,
    // The byte after the latest token.
    behind: usize,
}

// Returns what the latest tokens are behind one more.
fn latest_behind(latest: Latest, kind: TokenKind, word: &str) -> Latest {
    match (latest, kind) {
        (_, TokenKind::Dollar) => Latest::Dollar,
        (_, TokenKind::Eq) => Latest::Equals,
        (Latest::Equals, TokenKind::Gt) => Latest::Arrow,
        (Latest::Rules, TokenKind::Bang) => Latest::RulesBang,
        (Latest::RulesBang, TokenKind::Ident | TokenKind::RawIdent) => Latest::RulesName,
        (_, TokenKind::Ident) => {
            if word == "macro_rules" {
                Latest::Rules
            } else {
                Latest::Other
            }
        }
        _ => Latest::Other,
    }
}

impl<'s> Reader<'s> {
    // Returns whether the innermost open template begins at a place.
    fn begins_template(&self, at: usize) -> bool {
        let number = self.inside.last().copied();
        let template = number.and_then(|number| self.found.templates.get(number));
        template.is_some_and(|it| it.first == at)
    }

    // Returns whether a line or the open template begins with this `$`, or with the repetition around it that begins with it.
    fn begins(&self, start: usize, around: Option<&Repetition>) -> bool {
        let start = match around {
            Some(it) if it.first == start && !it.breaks => it.start,
            _ => start,
        };
        begins_line(self.source, start) || self.begins_template(start)
    }

    // Returns how many bytes the lines of a repetition are further indented that begins with this `$` and token.
    fn deeper(&self, start: usize, first: usize, outer: Option<usize>) -> usize {
        let around = outer.and_then(|number| self.found.repetitions.get(number));
        let deeper = around.map_or(0, |it| it.deeper);
        if !self.begins(start, around) {
            return deeper;
        }
        let line = indentation(self.source, start);
        deeper.saturating_add(indentation(self.source, first).saturating_sub(line))
    }

    // Returns how many bytes the first token of a repetition is further indented than its `$`, if that begins a line which is no further
    // indented than that of the bracket around it.
    fn beyond(&self, start: usize, first: usize) -> usize {
        let line = indentation(self.source, start);
        match self.opened.last() {
            Some(Opened::Other(at))
                if begins_line(self.source, start) && line <= indentation(self.source, *at) => {
                indentation(self.source, first).saturating_sub(line)
            }
            _ => 0,
        }
    }

    // Opens a repetition whose `(` is at a place.
    fn open_repetition(&mut self, at: usize) -> Result<Opened, AllocError> {
        let start = at.saturating_sub(1);
        let inner = at.saturating_add(1);
        let first = blank_end(self.source, inner);
        let outer = self.innermost;
        let breaks = breaks(part(self.source, inner, first));
        let beyond = if breaks { self.beyond(start, first) } else { 0 };
        let deeper = if breaks {
            self.deeper(start, first, outer).saturating_sub(beyond)
        } else {
            self.deeper(start, start, outer)
        };
        let number = self.found.repetitions.len();
        self.found.repetitions.push(Repetition {
            start,
            inner,
            first,
            close: self.source.len(),
            end: self.source.len(),
            breaks,
            has_lines: false,
            deeper,
            beyond,
            outer,
        })?;
        self.innermost = Some(number);
        Ok(Opened::Repetition(number))
    }

    // Remembers that the innermost open template goes on from a place.
    fn begin(&mut self, start: usize) -> Result<(), AllocError> {
        let number = self.inside.last().copied();
        self.found.borders.push(Border { start, number })?;
        Ok(())
    }

    // Opens a template whose bracket is at a place.
    fn open_template(&mut self, at: usize) -> Result<Opened, AllocError> {
        let start = at.saturating_add(1);
        let first = blank_end(self.source, start);
        let number = self.found.templates.len();
        let around = self
            .innermost
            .and_then(|number| self.found.repetitions.get(number));
        let deeper = around.map_or(0, |it| it.deeper);
        let outer = self.inside.last().copied();
        self.has_inner = self.has_inner || outer.is_some();
        self.found.templates.push(Template {
            start,
            end: self.source.len(),
            comment: space_end(self.source, start),
            first,
            last: start,
            closing: start,
            indent: indentation(self.source, first).saturating_sub(deeper),
            outer,
        })?;
        self.inside.push(number)?;
        self.begin(start)?;
        Ok(Opened::Template(number))
    }

    // Opens a bracket.
    fn open(&mut self, at: usize, kind: TokenKind) -> Result<(), AllocError> {
        self.closed = None;
        let in_rules = matches!(self.opened.last(), Some(Opened::Rules));
        let opened = match self.latest {
            Latest::Dollar if kind == TokenKind::OpenParen => self.open_repetition(at)?,
            Latest::Arrow if in_rules => self.open_template(at)?,
            Latest::RulesName => Opened::Rules,
            _ => Opened::Other(at),
        };
        self.opened.push(opened)?;
        Ok(())
    }

    // Returns whether the rounds of a repetition have several lines, if it begins and ends at these places.
    fn has_lines(&self, first: usize, close: usize) -> bool {
        let end = space_start(self.source, close);
        breaks(part(self.source, first, end))
            && matches!(byte_before(self.source, end), Some(b'}' | b';'))
    }

    // Closes a template whose closing bracket is at a place. Comments that are longer than a gap do not count.
    fn close_template(&mut self, number: usize, at: usize) -> Result<(), AllocError> {
        let _inside = self.inside.pop();
        self.begin(at)?;
        let last = self.behind;
        let stop = space_start(self.source, at);
        if let Some(template) = self.found.templates.get_mut(number) {
            template.end = at;
            template.last = last;
            template.closing = if stop.saturating_sub(last) > MOST_GAP {
                last
            } else {
                stop.max(last)
            };
            if template.first < last && last < template.closing {
                self.found.have_closing = true;
            }
        }
        Ok(())
    }

    // Closes a bracket.
    fn close(&mut self, at: usize) -> Result<(), AllocError> {
        self.closed = None;
        match self.opened.pop() {
            Some(Opened::Repetition(number)) => {
                let first = match self.found.repetitions.get(number) {
                    Some(repetition) => repetition.first,
                    None => at,
                };
                let has_lines = self.has_lines(first, at);
                if let Some(repetition) = self.found.repetitions.get_mut(number) {
                    repetition.close = at;
                    repetition.end = at.saturating_add(1);
                    repetition.has_lines = has_lines;
                    self.innermost = repetition.outer;
                }
                self.closed = Some(number);
                self.found.closed.push(number)?;
                Ok(())
            }
            Some(Opened::Template(number)) => self.close_template(number, at),
            _ => Ok(()),
        }
    }

    // Passes a token that is no bracket: an operator ends the repetition before it.
    fn pass(&mut self, at: usize, kind: TokenKind) {
        let Some(number) = self.closed else {
            return;
        };
        if matches!(
            kind,
            TokenKind::Star | TokenKind::Plus | TokenKind::Question
        ) {
            if let Some(repetition) = self.found.repetitions.get_mut(number) {
                repetition.end = at.saturating_add(1);
            }
            self.closed = None;
        }
    }

    // Reads a token at a place.
    fn token(&mut self, at: usize, token: Token) -> Result<(), AllocError> {
        match token.kind {
            TokenKind::OpenParen | TokenKind::OpenBrace | TokenKind::OpenBracket => {
                self.open(at, token.kind)?;
            }
            TokenKind::CloseParen | TokenKind::CloseBrace | TokenKind::CloseBracket => {
                self.close(at)?;
            }
            kind => self.pass(at, kind),
        }
        self.behind = at.saturating_add(token.len as usize);
        let word = part(self.source, at, self.behind);
        self.latest = latest_behind(self.latest, token.kind, word);
        Ok(())
    }

    // Reads the definition of macros at a place. Returns where it ends.
    fn definition(&mut self, start: usize) -> Result<usize, AllocError> {
        let mut at = start;
        self.latest = Latest::Other;
        for token in tokens(part(self.source, start, self.source.len())) {
            if !is_blank(token.kind) {
                self.token(at, token)?;
            }
            at = at.saturating_add(token.len as usize);
            if self.opened.is_empty() && matches!(self.latest, Latest::Other) {
                return Ok(at);
            }
        }
        self.opened.clear();
        self.innermost = None;
        self.inside.clear();
        self.begin(self.source.len())?;
        Ok(at)
    }
}

impl Templates {
    /// Returns the templates of a source, and the repetitions of its definitions of macros.
    pub fn read(alloc: Global, source: &str) -> Result<Templates, AllocError> {
        let mut reader = Reader {
            source,
            found: Templates {
                templates: Vec::new(alloc),
                borders: Vec::new(alloc),
                repetitions: Vec::new(alloc),
                closed: Vec::new(alloc),
                have_closing: false,
            },
            latest: Latest::Other,
            opened: Vec::new(alloc),
            innermost: None,
            closed: None,
            inside: Vec::new(alloc),
            has_inner: false,
            behind: 0,
        };
        let mut end = 0;
        for start in memmem::find_iter(source.as_bytes(), b"macro_rules") {
            if start >= end {
                end = reader.definition(start)?;
            }
        }
        if !reader.has_inner {
            reader.found.borders.clear();
        }
        Ok(reader.found)
    }
}
