//! Restore points, and those of a builder that are valid.
ghost use Rattle.std.specs.Prelude.{◌≡◌, filter, nat_le};
ghost use Rattle.tt.specs.BuilderFields.{AreInOrder, kept_under};

/// A restore point: a number. It means the point that a builder took under that number, if the builder took one.
#[derive(Clone, Copy, Debug)]
pub struct SubtreeBuilderRestorePoint {
    number: u64,
}

impl SubtreeBuilderRestorePoint {
    ghost use Rattle.tt.specs.Points.{number_of};

    /// Returns the number of the point. Numbers begin at 0.
    pub fn number(self) -> u64
        ensures { result ≡ number_of self }
    {
        self.number
    }

    /// Returns the point of that number, which may be any number.
    pub fn from_number(number: u64) -> SubtreeBuilderRestorePoint
        ensures { number_of result ≡ number }
    {
        SubtreeBuilderRestorePoint { number }
    }
}

/// A valid restore point: its number, how many tokens the builder held when it was taken, and how many subtrees were open.
#[derive(Clone, Copy, Debug)]
pub(crate) struct Standing {
    pub(crate) number: u64,
    pub(crate) tokens: usize,
    pub(crate) depth: usize,
}

/// Drops the points with more than `depth` levels. They are the last ones.
pub(crate) fn drop_deeper(points: &mut Vec<Standing>, depth: usize)
    requires { AreInOrder points.old.items }
    ensures { points.new.items ≡ filter (λ point. nat_le point.depth depth) points.old.items }
{
    let mut stay = points.len();
    while stay > 0 {
        if points[stay - 1].depth <= depth {
            points.truncate(stay);
            return;
        }
        stay -= 1;
    }
    points.truncate(0);
}

/// Drops the points with more than `tokens` tokens. They are the last ones.
pub(crate) fn drop_later(points: &mut Vec<Standing>, tokens: usize)
    requires { AreInOrder points.old.items }
    ensures { points.new.items ≡ filter (λ point. nat_le point.tokens tokens) points.old.items }
{
    let mut stay = points.len();
    while stay > 0 {
        if points[stay - 1].tokens <= tokens {
            points.truncate(stay);
            return;
        }
        stay -= 1;
    }
    points.truncate(0);
}

/// Returns the point of that number. The numbers rise, so each comparison halves the points that are left.
pub(crate) fn find(points: &[Standing], number: u64) -> Option<Standing>
    requires { AreInOrder points.now }
    ensures { result ≡ kept_under number points.now }
{
    let lower = points.partition_point(|point| point.number < number);
    let Some(point) = points.get(lower) else {
        return None;
    };
    if point.number != number {
        return None;
    }
    Some(*point)
}
