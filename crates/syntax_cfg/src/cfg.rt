//! What a text says of conditions.
ghost use Rattle.std.specs.Prelude.{◌≡◌, option_map};
ghost use Rattle.syntax_cfg.specs.Cfg.{cfg_in, unquoted, value_in, said};

use crate::name::name_in;

/// What holds: a name, or a key with a value.
#[derive(Clone, Copy)]
pub struct Cfg<'a> {
    /// The name or the key.
    pub name: &'a str,
    /// The value, if it is a key.
    pub value: Option<&'a str>,
}

// Returns the text between two quotes, if it has no quotes and no escapes.
fn unquoted(text: &str) -> Option<&str>
    ensures { option_map (λ it. it.now) result ≡ unquoted text.now }
{
    let (before, rest) = text.split_once('"')?;
    let (value, behind) = rest.split_once('"')?;
    if before.is_empty() && behind.is_empty() && value.split_once('\\').is_none() {
        Some(value)
    } else {
        None
    }
}

// Returns the value in a text with white space around it.
fn value_in(text: &str) -> Option<&str>
    ensures { option_map (λ it. it.now) result ≡ value_in text.now }
{
    unquoted(text.trim())
}

/// Returns what a text says, as rustc reads it, or `None` if it is no `NAME` and no `NAME="VALUE"`. White space may stand around the name
/// and around the value.
pub fn cfg_in(text: &str) -> Option<Cfg<'_>>
    ensures { option_map said result ≡ cfg_in text.now }
{
    match text.split_once('=') {
        None => Some(Cfg {
            name: name_in(text)?,
            value: None,
        }),
        Some((key, value)) => Some(Cfg {
            name: name_in(key)?,
            value: Some(value_in(value)?),
        }),
    }
}
