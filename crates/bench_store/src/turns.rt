//! Whose turn it is.
use tt::TtFault;

/// Values that are used in turn, the first again after the last.
#[derive(Drop)]
pub struct Turns<'a, T> {
    values: &'a mut [T],
    // of the value whose turn it is
    place: usize,
}

impl<'a, T> Turns<'a, T> {
    /// The first value begins.
    pub fn new(values: &'a mut [T]) -> Turns<'a, T> {
        Turns { values, place: 0 }
    }

    /// The value whose turn it is. `NotOneSubtree` if there is none at all.
    pub fn next(&mut self) -> Result<&mut T, TtFault> {
        let place = self.place;
        let behind = place.saturating_add(1);
        self.place = if behind < self.values.len() {
            behind
        } else {
            0
        };
        match self.values.get_mut(place) {
            Some(value) => Ok(value),
            None => Err(TtFault::NotOneSubtree),
        }
    }
}

/// Adds up what the rounds of one lap answer. A lap is a round on each tree.
#[derive(Clone, Copy)]
pub struct LapSum {
    // the number of rounds of a lap
    trees: usize,
    // how many of them are still to come
    left: usize,
    sum: u64,
}

impl LapSum {
    /// No round has answered yet.
    pub fn new(trees: usize) -> LapSum {
        LapSum {
            trees,
            left: 0,
            sum: 0,
        }
    }

    /// Adds the answer of a round. The first of a lap begins anew.
    pub fn add(&mut self, answer: u64) {
        if self.left == 0 {
            self.left = self.trees;
            self.sum = 0;
        }
        self.left = self.left.saturating_sub(1);
        self.sum = self.sum.wrapping_add(answer);
    }

    /// The sum of the last lap that was begun.
    pub fn sum(&self) -> u64 {
        self.sum
    }
}
