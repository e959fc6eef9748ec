//! How often a repetition of a template is filled.
ghost use Rattle.std.specs.Prelude.{◌≡◌, Ok, Err, drop, map, IfOk, IfErr};
ghost use Rattle.mbe_matcher.specs.Bindings.{Binding};
ghost use Rattle.mbe_rules.specs.declared.counting.Count.TheVariants.{Unknown};
ghost use Rattle.mbe_rules.specs.Counting.{counted_with, counted_all, rounds_by, counts_seen, uses_before, kind_before, behind_close};
ghost use Rattle.mbe_rules.specs.Results.{error_of};
ghost use Rattle.mbe_rules.specs.Transcribing.{TranscribeFault, counts_of};
ghost use Rattle.mbe_rules.specs.Parts.{bit_of};
ghost use Rattle.mbe_rules.specs.Rounds.{AreTaken, binding_in, dones, seen_as};

use crate::parts::Part;
use crate::taken::{Round, Seen, Taken, seen_in};
use crate::transcribe_error::TranscribeError;
use mbe_pattern::RepeatKind;

/// How many rounds some variables have: none of them has rounds, all have the same number, or the numbers differ.
#[derive(Clone, Copy)]
pub(crate) enum Count {
    Unknown,
    Same(usize),
    Differ,
}

/// What a scan finds of a repetition: the rounds of its variables, its kind, and the index of the part after it.
#[derive(Clone, Copy)]
pub(crate) struct Scanned {
    pub(crate) count: Count,
    pub(crate) kind: RepeatKind,
    pub(crate) behind: usize,
}

impl Count {
    // Counts one more variable, of which this is seen.
    fn with(self, seen: Seen<'_>) -> Count
        ensures { result ≡ counted_all (counts_seen (seen_as seen.entry)) self }
    {
        match (seen, self) {
            (Seen::Trees(_), count) => count,
            (Seen::Rounds(rounds), Count::Unknown) => Count::Same(rounds),
            (Seen::Rounds(rounds), Count::Same(others)) if rounds == others => Count::Same(others),
            (Seen::Rounds(_), _) => Count::Differ,
        }
    }
}

/// Scans a repetition whose body begins with that part. The given rounds are around it.
pub(crate) fn scan(parts: &[Part], taken: &[Taken<'_>], rounds: &[Round], body: usize) -> Scanned
    ensures count { (binding : Binding) → AreTaken binding taken.now → result.count ≡ counted_all (counts_of (binding_in (dones rounds.now) binding) (uses_before 0 (map bit_of (drop body parts.now)))) Unknown }
    ensures kind { result.kind ≡ kind_before 0 (map bit_of (drop body parts.now)) }
    ensures behind { map bit_of (drop result.behind parts.now) ≡ behind_close 0 (map bit_of (drop body parts.now)) }
{
    let mut count = Count::Unknown;
    let mut open: usize = 0;
    let mut at = body;
    while let Some(part) = parts.get(at) {
        at += 1;
        match part {
            Part::Use(_, number, _) => count = count.with(seen_in(taken, *number, rounds)),
            Part::Begin(_) => open += 1,
            Part::Close(tail) => {
                if open == 0 {
                    return Scanned {
                        count,
                        kind: tail.kind,
                        behind: at,
                    };
                }
                open -= 1;
            }
            Part::Token(_) | Part::Enter(_) | Part::Leave => {}
        }
    }
    Scanned {
        count,
        kind: RepeatKind::ZeroOrMore,
        behind: at,
    }
}

/// Returns how often the repetition whose `$` is at that flat place is filled.
pub(crate) fn rounds_by(at: usize, kind: RepeatKind, count: Count) -> Result<usize, TranscribeError>
    ensures ok { IfOk result (λ n. rounds_by at kind count ≡ Ok n) }
    ensures err { IfErr result (λ error. (fault : TranscribeFault) × (rounds_by at kind count ≡ Err fault) × (error ≡ error_of fault)) }
{
    match (count, kind) {
        (Count::Unknown, _) => Err(TranscribeError::NothingRepeats(at)),
        (Count::Same(0), RepeatKind::OneOrMore) => Err(TranscribeError::NoRound(at)),
        (Count::Same(rounds), _) => Ok(rounds),
        (Count::Differ, _) => Err(TranscribeError::LengthsDiffer(at)),
    }
}
