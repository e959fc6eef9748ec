//! The kinds of the subtrees that are open in a builder.
use crate::builder::tokens::kind_at;
use tt_base::DelimiterKind;
use tt_tables::InternedToken;

/// An iterator over the kinds of the subtrees that are open in a builder, innermost first.
#[derive(Clone, Debug, Drop)]
pub struct ExpectedDelimiters<'a> {
    pub(crate) tokens: &'a [InternedToken],
    // the places of the open headers, outermost first; place 0 is the top
    pub(crate) places: &'a [usize],
}

impl<'a> Iterator for ExpectedDelimiters<'a> {
    ghost use Rattle.std.specs.Iterator.{YieldsFirst, item_count};
    ghost use Rattle.tt.specs.Points.{kinds_left};

    type Item = DelimiterKind;

    ghost next_gives = { YieldsFirst kinds_left };

    ghost remaining = { item_count kinds_left };

    fn next(&mut self) -> Option<DelimiterKind> {
        let (place, outer) = self.places.split_last()?;
        self.places = outer;
        Some(kind_at(self.tokens, place.saturating_sub(1)))
    }
}
