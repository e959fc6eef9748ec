//! The text of a symbol.
ghost use Rattle.std.specs.Prelude.{◌≡◌, IfOk};
ghost use Rattle.tt_base.specs.Text.{text_bytes};

use arrayvec::ArrayString;
use std::alloc::{AllocError, Global};

// The largest number of bytes of a short text. Nearly all names are short. A larger number would make each block of a symbol larger.
const SHORT_BYTES: usize = 24;

/// A text that does not change. A short one is inside the value, so a caller that has read the value has the text.
#[derive(Drop)]
pub(crate) enum Text {
    Short(ArrayString<SHORT_BYTES>),
    Long(String),
}

impl Text {
    /// Returns a copy of the text. Takes memory only if the text is long.
    pub(crate) fn new(alloc: Global, text: &str) -> Result<Text, AllocError>
        ensures { IfOk result (λ copy. text_bytes copy ≡ text.now) }
    {
        if let Ok(short) = ArrayString::from(text) {
            return Ok(Text::Short(short));
        }
        let long = String::from_str(alloc, text)?;
        Ok(Text::Long(long))
    }

    pub(crate) fn as_str(&self) -> &str
        ensures { result.now ≡ text_bytes self.now }
    {
        match self {
            Text::Short(text) => text.as_str(),
            Text::Long(text) => text.as_str(),
        }
    }
}
