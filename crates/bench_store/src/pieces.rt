//! Trees as pieces of bytes.
use crate::error::BenchError;
use crate::stopwatch::Stopwatch;
use crate::turns::Turns;
use crate::twins::{Pair, Twins};
use std::alloc::Global;
use std::time::CpuClock;
use tt::TtFault;
use tt_bytes::{from_bytes, to_bytes};

/// Reads the trees from their bytes.
pub fn load<R: CpuClock>(
    watch: &mut Stopwatch<R>,
    alloc: Global,
    twins: &Twins,
    rounds: u32,
) -> Result<u64, BenchError> {
    let mut pieces = Vec::new(alloc);
    for tree in twins.trees() {
        pieces
            .push(to_bytes(alloc, tree)?)
            .map_err(|_refused| TtFault::Memory)?;
    }
    load_each(watch, alloc, Turns::new(&mut pieces), rounds)
}

// Each round reads the bytes of a tree. The tree is let go after the watch stopped.
fn load_each<R: CpuClock>(
    watch: &mut Stopwatch<R>,
    alloc: Global,
    mut turns: Turns<'_, Vec<u8>>,
    rounds: u32,
) -> Result<u64, BenchError> {
    for _ in 0..rounds {
        let bytes = turns.next()?;
        watch.start();
        let tree = from_bytes(alloc, bytes.as_slice())?;
        watch.stop();
        drop(tree);
    }
    Ok(0)
}

/// Writes the trees as bytes. Each piece is let go after the watch stopped.
pub fn save<R: CpuClock>(
    watch: &mut Stopwatch<R>,
    alloc: Global,
    turns: &mut Turns<'_, Pair<'_>>,
    rounds: u32,
) -> Result<u64, TtFault> {
    for _ in 0..rounds {
        let tree = turns.next()?.tree;
        watch.start();
        let bytes = to_bytes(alloc, tree)?;
        watch.stop();
        drop(bytes);
    }
    Ok(0)
}
