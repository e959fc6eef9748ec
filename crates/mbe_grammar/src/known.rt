//! What is known of expressions before they are read.
ghost use Rattle.std.specs.Prelude.{◌≡◌, ◌%◌, slice_get};
ghost use Rattle.mbe_grammar.specs.Known.{glance_by, glance_in};

/// What is known of an expression before units of some kinds: one bit for each kind.
#[derive(Clone, Copy)]
pub struct Known {
    /// The kinds before which it fails.
    pub fails: u64,
    /// The kinds before which it takes nothing.
    pub idles: u64,
}

/// What an expression does before a unit, as far as it is known.
#[derive(Clone, Copy)]
pub(crate) enum Glance {
    /// It fails.
    Fails,
    /// It takes nothing.
    Idles,
    /// It is not known.
    Open,
}

impl Known {
    // Returns what the expression does before a unit of that kind.
    #[inline(always)]
    fn glance(self, kind: u32) -> Glance
        ensures { result ≡ glance_by self (kind % 64) }
    {
        let bit = kind % 64;
        if (self.fails >> bit) & 1 == 1 {
            Glance::Fails
        } else if (self.idles >> bit) & 1 == 1 {
            Glance::Idles
        } else {
            Glance::Open
        }
    }
}

/// Returns what the expression at that index of the table does before a unit of that kind.
#[inline(always)]
pub(crate) fn look(known: &[Known], at: usize, kind: u32) -> Glance
    ensures { result ≡ glance_in (slice_get known.now at) (kind % 64) }
{
    match known.get(at) {
        Some(known) => known.glance(kind),
        None => Glance::Open,
    }
}
