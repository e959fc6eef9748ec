//! One measurement, from a job to its line of numbers.
use crate::building::{self, Call};
use crate::error::BenchError;
use crate::expansion::{Expansion, Instance};
use crate::items::items;
use crate::job::Job;
use crate::mode::{Mode, Reading};
use crate::pieces::{load, save};
use crate::stopwatch::Stopwatch;
use crate::texts::Text;
use crate::turns::{LapSum, Turns};
use crate::twins::{Pair, Twins, copies, packed};
use crate::walk::Walk;
use std::alloc::Global;
use std::fmt;
use std::hash::{DefaultHasher, FoldHasher, Hash, Hasher};
use std::time::{CpuClock, Duration};
use tt::{
    Delimiter, ErasedFileAstId, TokenTree, TopSubtree, TransformTtAction, TtFault, transform_tt,
};

/// What was measured. Its text is one line: nanoseconds, sum, bytes, parts, symbols.
#[derive(Clone, Copy)]
pub struct Measured {
    /// The processor time of all rounds.
    pub time: Duration,
    /// What to know the answers by: of a walk, a text and an expansion what the rounds of the last lap answered, added up
    /// (a lap is a round on each tree; of one tree it is the last round), of `equal` the number of rounds that found the
    /// twins equal, of a hash its value, and else 0.
    pub sum: u64,
    /// How many bytes are stored for all trees.
    pub bytes: usize,
    /// How many span parts are stored for all trees.
    pub parts: usize,
    /// How many symbols are stored for all trees.
    pub symbols: usize,
}

impl fmt::Display for Measured {
    fn fmt<W: fmt::Write>(&self, f: &mut fmt::Formatter<W>) -> fmt::Result {
        let nanos = self.time.as_nanos();
        write!(
            f,
            "{nanos} {} {} {} {}",
            self.sum, self.bytes, self.parts, self.symbols
        )
    }
}

impl Measured {
    // Nothing is counted yet.
    fn new(time: Duration, sum: u64) -> Measured {
        Measured {
            time,
            sum,
            bytes: 0,
            parts: 0,
            symbols: 0,
        }
    }

    // Adds what is stored for the trees.
    fn add_all(&mut self, trees: &[TopSubtree]) {
        for tree in trees {
            self.add(tree);
        }
    }

    // Adds what is stored for a tree.
    fn add(&mut self, tree: &TopSubtree) {
        self.bytes = self.bytes.saturating_add(tree.packed_bytes().len());
        self.parts = self.parts.saturating_add(tree.span_part_table().len());
        self.symbols = self.symbols.saturating_add(tree.symbol_table().len());
    }
}

/// Times the job on the trees that `item` lines spell.
pub fn measure<R: CpuClock + AllocGlobal>(
    rt: &R,
    job: Job,
    lines: &[u8],
) -> Result<Measured, BenchError> {
    let mut lists = items(rt.alloc(), lines, job.texts)?;
    let twins = Twins::new(rt.alloc(), &lists, lines, job.texts)?;
    let mut watch = Stopwatch::new(rt);
    let sum = measure_rounds(&mut watch, rt.alloc(), job, &mut lists, &twins)?;
    let mut measured = Measured::new(watch.total()?, sum);
    measured.add_all(twins.trees());
    Ok(measured)
}

// Runs all rounds, and answers the sum.
fn measure_rounds<R: CpuClock>(
    watch: &mut Stopwatch<R>,
    alloc: Global,
    job: Job,
    lists: &mut [Vec<TokenTree>],
    twins: &Twins,
) -> Result<u64, BenchError> {
    let rounds = job.rounds;
    match job.mode {
        Mode::Pack => Ok(pack(watch, alloc, Turns::new(lists), rounds)?),
        Mode::Build => Ok(build(watch, alloc, lists, rounds)?),
        Mode::Rewrite => Ok(rewrite(watch, alloc, twins, rounds)?),
        Mode::Ids => Ok(ids(watch, alloc, twins, rounds)?),
        Mode::Expand => expand(watch, alloc, twins, rounds),
        Mode::Load => load(watch, alloc, twins, rounds),
        Mode::Read(reading) => {
            let mut pairs = twins.pairs(alloc)?;
            read(
                watch,
                alloc,
                reading,
                &mut Turns::new(&mut pairs),
                twins.lap(),
                rounds,
            )
        }
    }
}

// Reads the trees, and what else leaves them as they are.
fn read<R: CpuClock>(
    watch: &mut Stopwatch<R>,
    alloc: Global,
    reading: Reading,
    turns: &mut Turns<'_, Pair<'_>>,
    mut lap: LapSum,
    rounds: u32,
) -> Result<u64, BenchError> {
    match reading {
        Reading::Walk(way) => walk(watch, alloc, turns, &mut lap, way, rounds),
        Reading::Print(text) => Ok(print(watch, alloc, turns, &mut lap, text, rounds)?),
        Reading::Equal => Ok(equal(watch, turns, rounds)?),
        Reading::Fold => Ok(hash(watch, turns, &mut FoldHasher::default(), rounds)?),
        Reading::Sip => Ok(hash(watch, turns, &mut DefaultHasher::default(), rounds)?),
        Reading::Clone => Ok(clone(watch, alloc, turns, rounds)?),
        Reading::Save => Ok(save(watch, alloc, turns, rounds)?),
        Reading::Drop => Ok(let_go(watch, alloc, turns, rounds)?),
    }
}

// Each round packs a copy of a list, which is made before the watch starts.
fn pack<R: CpuClock>(
    watch: &mut Stopwatch<R>,
    alloc: Global,
    mut turns: Turns<'_, Vec<TokenTree>>,
    rounds: u32,
) -> Result<u64, TtFault> {
    for _ in 0..rounds {
        let copy = turns.next()?.to_vec(alloc)?;
        watch.start();
        let tree = packed(alloc, copy)?;
        watch.stop();
        drop(tree);
    }
    Ok(0)
}

// Makes the calls of all lists.
fn build<R: CpuClock>(
    watch: &mut Stopwatch<R>,
    alloc: Global,
    lists: &[Vec<TokenTree>],
    rounds: u32,
) -> Result<u64, TtFault> {
    let mut all = building::all_calls(alloc, lists)?;
    build_each(watch, alloc, Turns::new(&mut all), rounds)
}

// Each round makes the calls of a list, of which a copy is made before the watch starts.
fn build_each<R: CpuClock>(
    watch: &mut Stopwatch<R>,
    alloc: Global,
    mut turns: Turns<'_, (Delimiter, Vec<Call>)>,
    rounds: u32,
) -> Result<u64, TtFault> {
    for _ in 0..rounds {
        let (top, calls) = turns.next()?;
        let copy = calls.to_vec(alloc)?;
        watch.start();
        let tree = building::build(alloc, *top, copy)?;
        watch.stop();
        drop(tree);
    }
    Ok(0)
}

// Rewrites copies of the trees.
fn rewrite<R: CpuClock>(
    watch: &mut Stopwatch<R>,
    alloc: Global,
    twins: &Twins,
    rounds: u32,
) -> Result<u64, TtFault> {
    let mut trees = copies(alloc, twins.trees())?;
    rewrite_each(watch, alloc, Turns::new(&mut trees), rounds)
}

// Each round rewrites the same copy of a tree, and keeps all that it holds.
fn rewrite_each<R: CpuClock>(
    watch: &mut Stopwatch<R>,
    alloc: Global,
    mut turns: Turns<'_, TopSubtree>,
    rounds: u32,
) -> Result<u64, TtFault> {
    watch.start();
    for _ in 0..rounds {
        transform_tt(alloc, turns.next()?, |_| TransformTtAction::Keep)?;
    }
    watch.stop();
    Ok(0)
}

// Changes the ids of copies of the trees.
fn ids<R: CpuClock>(
    watch: &mut Stopwatch<R>,
    alloc: Global,
    twins: &Twins,
    rounds: u32,
) -> Result<u64, TtFault> {
    let mut trees = copies(alloc, twins.trees())?;
    change_each(watch, alloc, Turns::new(&mut trees), rounds)
}

// Each round gives all spans of the same copy of a tree another id, and different ids stay different.
fn change_each<R: CpuClock>(
    watch: &mut Stopwatch<R>,
    alloc: Global,
    mut turns: Turns<'_, TopSubtree>,
    rounds: u32,
) -> Result<u64, TtFault> {
    watch.start();
    for _ in 0..rounds {
        let tree = turns.next()?;
        tree.change_every_ast_id(alloc, |id| ErasedFileAstId(id.0.wrapping_add(1)))?;
    }
    watch.stop();
    Ok(0)
}

// Expands by a rule of each tree.
fn expand<R: CpuClock>(
    watch: &mut Stopwatch<R>,
    alloc: Global,
    twins: &Twins,
    rounds: u32,
) -> Result<u64, BenchError> {
    let expansions = Expansion::all(alloc, twins.trees())?;
    let mut instances = Instance::all(alloc, &expansions)?;
    expand_each(
        watch,
        alloc,
        &mut Turns::new(&mut instances),
        twins.lap(),
        rounds,
    )
}

// Each round expands the input of a tree by the tree's rule. The expansion is dropped after the watch stopped.
fn expand_each<R: CpuClock>(
    watch: &mut Stopwatch<R>,
    alloc: Global,
    turns: &mut Turns<'_, Instance<'_>>,
    mut lap: LapSum,
    rounds: u32,
) -> Result<u64, BenchError> {
    for _ in 0..rounds {
        let instance = turns.next()?;
        watch.start();
        let tree = instance.expand(alloc)?;
        watch.stop();
        lap.add(tree.as_token_trees().len() as u64);
    }
    Ok(lap.sum())
}

fn walk<R: CpuClock>(
    watch: &mut Stopwatch<R>,
    alloc: Global,
    turns: &mut Turns<'_, Pair<'_>>,
    lap: &mut LapSum,
    way: Walk,
    rounds: u32,
) -> Result<u64, BenchError> {
    watch.start();
    for _ in 0..rounds {
        lap.add(way.sum(alloc, turns.next()?.tree)?);
    }
    watch.stop();
    Ok(lap.sum())
}

// Each round prints a tree, and lets the text go. The sum is of the lengths.
fn print<R: CpuClock>(
    watch: &mut Stopwatch<R>,
    alloc: Global,
    turns: &mut Turns<'_, Pair<'_>>,
    lap: &mut LapSum,
    text: Text,
    rounds: u32,
) -> Result<u64, TtFault> {
    watch.start();
    for _ in 0..rounds {
        lap.add(text.len(alloc, turns.next()?.tree)?);
    }
    watch.stop();
    Ok(lap.sum())
}

// Counts the rounds that find a tree equal to its twin.
fn equal<R: CpuClock>(
    watch: &mut Stopwatch<R>,
    turns: &mut Turns<'_, Pair<'_>>,
    rounds: u32,
) -> Result<u64, TtFault> {
    let mut count = 0u64;
    watch.start();
    for _ in 0..rounds {
        let pair = turns.next()?;
        if pair.tree == pair.twin {
            count = count.wrapping_add(1);
        }
    }
    watch.stop();
    Ok(count)
}

// One hasher takes the trees of all rounds.
fn hash<R: CpuClock, H: Hasher>(
    watch: &mut Stopwatch<R>,
    turns: &mut Turns<'_, Pair<'_>>,
    hasher: &mut H,
    rounds: u32,
) -> Result<u64, TtFault> {
    watch.start();
    for _ in 0..rounds {
        turns.next()?.tree.hash(hasher);
    }
    watch.stop();
    Ok(hasher.finish())
}

// Each copy is let go after the watch stopped.
fn clone<R: CpuClock>(
    watch: &mut Stopwatch<R>,
    alloc: Global,
    turns: &mut Turns<'_, Pair<'_>>,
    rounds: u32,
) -> Result<u64, TtFault> {
    for _ in 0..rounds {
        let tree = turns.next()?.tree;
        watch.start();
        let copy = tree.clone(alloc)?;
        watch.stop();
        drop(copy);
    }
    Ok(0)
}

// Each copy is made before the watch starts.
fn let_go<R: CpuClock>(
    watch: &mut Stopwatch<R>,
    alloc: Global,
    turns: &mut Turns<'_, Pair<'_>>,
    rounds: u32,
) -> Result<u64, TtFault> {
    for _ in 0..rounds {
        let copy = turns.next()?.tree.clone(alloc)?;
        watch.start();
        drop(copy);
        watch.stop();
    }
    Ok(0)
}
