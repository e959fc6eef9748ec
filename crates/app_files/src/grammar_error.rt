//! The diagnostic of a text that is no file by Rust's grammar.
use crate::failure::Failure;
use crate::style::style_of;
use crate::syntax_error::error_text_at;
use crate::words::word_text;
use mbe_grammar::{SyntaxError, Test, Unit, test_of};
use std::alloc::{AllocError, Global};
use syntax_diagnostic::Style;
use tt::{DelimiterKind, Span, TtElement, TtIter};

// The longest text of a token that a message quotes.
const MOST_QUOTED: usize = 40;

// The first token that no rule takes: where it begins, and how a message names it.
#[derive(Drop)]
struct Found {
    at: usize,
    text: String,
}

// Returns the text in backquotes.
fn quoted(alloc: Global, text: &str) -> Result<String, AllocError> {
    format!(in alloc; "`{text}`")
}

// Returns how a bracket opens.
fn opening(kind: DelimiterKind) -> &'static str {
    match kind {
        DelimiterKind::Parenthesis => "(",
        DelimiterKind::Brace => "{",
        DelimiterKind::Bracket => "[",
        DelimiterKind::Invisible | DelimiterKind::InvisibleOpaque => "",
    }
}

// Returns how a message names a unit; an empty text for a unit that no text has.
fn unit_text(alloc: Global, unit: Unit) -> Result<String, AllocError> {
    match unit {
        Unit::Word(word) => quoted(alloc, word_text(word)),
        Unit::Punct(one) => format!(in alloc; "`{one}`"),
        Unit::TwoPuncts(one, two) => format!(in alloc; "`{one}{two}`"),
        Unit::ThreePuncts(one, two, three) => format!(in alloc; "`{one}{two}{three}`"),
        Unit::Subtree(kind) => quoted(alloc, opening(kind)),
        Unit::Lifetime => "lifetime".to_string(alloc),
        Unit::Literal(_) => "literal".to_string(alloc),
        Unit::End => Ok(String::new(alloc)),
    }
}

// Returns how a message names what passes a test; an empty text for what no text has.
fn test_text(alloc: Global, test: Test) -> Result<String, AllocError> {
    match test {
        Test::Is(unit) => unit_text(alloc, unit),
        Test::Front(char) => format!(in alloc; "`{char}`"),
        Test::Holding(kind, _) => quoted(alloc, opening(kind)),
        Test::Name | Test::PathSegment => "identifier".to_string(alloc),
        Test::TruthValue => "boolean".to_string(alloc),
        Test::Literal => "literal".to_string(alloc),
        Test::Text => "string literal".to_string(alloc),
        Test::Number => "number".to_string(alloc),
        Test::Delimited => "bracket".to_string(alloc),
        Test::BinaryOperator | Test::AssignmentOperator => "operator".to_string(alloc),
        Test::BeginsExpression => "expression".to_string(alloc),
        Test::Any | Test::Opaque | Test::OpaqueHolding(_) => Ok(String::new(alloc)),
    }
}

// Returns whether the text is one of these.
fn is_among(texts: &[String], text: &str) -> bool {
    for other in texts {
        if other.as_str() == text {
            return true;
        }
    }
    false
}

// Returns how a message names what is wanted, each once.
fn wanted_texts(alloc: Global, units: &[usize]) -> Result<Vec<String>, AllocError> {
    let mut texts: Vec<String> = Vec::new(alloc);
    for unit in units {
        if let Some(test) = test_of(*unit) {
            let text = test_text(alloc, test)?;
            if !text.is_empty() && !is_among(&texts, text.as_str()) {
                texts.push(text)?;
            }
        }
    }
    Ok(texts)
}

// Returns what comes between a text of a list and the one before it.
fn between(place: usize, count: usize) -> &'static str {
    if place == 0 {
        ""
    } else if place.saturating_add(1) < count {
        ", "
    } else if count == 2 {
        " or "
    } else {
        ", or "
    }
}

// Returns the message: what is wanted, and what comes instead.
fn message(alloc: Global, wanted: &[String], found: &str) -> Result<String, AllocError> {
    let mut text = String::new(alloc);
    if wanted.is_empty() {
        text.push_str("unexpected ")?;
        text.push_str(found)?;
        return Ok(text);
    }
    text.push_str("expected ")?;
    if wanted.len() > 1 {
        text.push_str("one of ")?;
    }
    let count = wanted.len();
    for (place, one) in wanted.iter().enumerate() {
        text.push_str(between(place, count))?;
        text.push_str(one.as_str())?;
    }
    text.push_str(", found ")?;
    text.push_str(found)?;
    Ok(text)
}

// Returns whether a text has a control character, which no message shows.
fn has_control(text: &str) -> bool {
    for c in text.chars() {
        if c.is_control() {
            return true;
        }
    }
    false
}

// Returns how a message names the token between these bytes.
fn token_text(alloc: Global, text: &str, start: usize, end: usize) -> Result<String, AllocError> {
    let Some(token) = text.get(start..end) else {
        return "token".to_string(alloc);
    };
    if token.starts_with("//") || token.starts_with("/*") {
        return "doc comment".to_string(alloc);
    }
    if token.len() > MOST_QUOTED || has_control(token) {
        return "literal".to_string(alloc);
    }
    quoted(alloc, token)
}

// Returns the bytes of a span.
fn bytes_of(span: Span) -> (usize, usize) {
    let start = span.range.start().raw() as usize;
    let end = span.range.end().raw() as usize;
    (start, end)
}

// Returns the bytes of the first unit; of a subtree, those of its opening bracket. None if there is no unit.
fn first_bytes<'t>(trees: TtIter<'t>) -> Option<(usize, usize)> {
    let mut behind = trees.remaining().iter();
    let unit = Unit::take(&mut behind);
    let mut trees = trees.remaining().iter();
    let (start, mut end) = match trees.next()? {
        TtElement::Leaf(leaf) => bytes_of(*leaf.span()),
        TtElement::Subtree(subtree, _) => bytes_of(subtree.delimiter.open_span),
    };
    for _ in 1..unit.size() {
        if let Some(TtElement::Leaf(leaf)) = trees.next() {
            end = bytes_of(*leaf.span()).1;
        }
    }
    Some((start, end))
}

// Returns how many trees a wanted test takes there; none if no test passes. One passes only if a negation behind its unit fails.
fn taken_there(units: &[usize], trees: TtIter<'_>) -> Option<usize> {
    let mut behind = trees.remaining().iter();
    let unit = Unit::take(&mut behind);
    for it in units {
        if let Some(test) = test_of(*it) {
            if test.passes(unit) {
                return Some(test.taken_size(unit));
            }
        }
    }
    None
}

// Returns the trees after that many.
fn behind<'t>(trees: TtIter<'t>, count: usize) -> TtIter<'t> {
    let mut trees = trees;
    for _ in 0..count {
        trees.next();
    }
    trees
}

// Returns the first of these trees as a token of a message. If there is none, that is the closing bracket, or the end of the file.
fn found_in(
    alloc: Global,
    text: &str,
    trees: TtIter<'_>,
    close: Option<Span>,
) -> Result<Found, AllocError> {
    let (start, end) = match (first_bytes(trees), close) {
        (Some(bytes), _) => bytes,
        (None, Some(close)) => bytes_of(close),
        (None, None) => {
            return Ok(Found {
                at: text.len(),
                text: "end of file".to_string(alloc)?,
            });
        }
    };
    Ok(Found {
        at: start,
        text: token_text(alloc, text, start, end)?,
    })
}

// Returns the diagnostic.
fn error_text(
    alloc: Global,
    style: Style,
    name: &str,
    text: &str,
    error: &SyntaxError<'_>,
) -> Result<String, AllocError> {
    let units = error.wanted.units.as_slice();
    let trees = behind(error.level.trees.iter(), error.wanted.passed);
    let (trees, wanted) = match taken_there(units, trees.remaining().iter()) {
        Some(count) => (behind(trees, count), Vec::new(alloc)),
        None => (trees, wanted_texts(alloc, units)?),
    };
    let found = found_in(alloc, text, trees, error.level.close)?;
    let message = message(alloc, &wanted, found.text.as_str())?;
    error_text_at(alloc, style, name, text, message.as_str(), found.at, None)
}

/// Returns the failure of a text of that name that is no file.
pub fn grammar_failure(
    rt: &HostRuntime,
    name: &str,
    text: &str,
    error: &SyntaxError<'_>,
) -> Failure {
    Failure::from_text(error_text(rt.alloc(), style_of(rt), name, text, error))
}
