//! Laws of programs: each is the contract of a function without effect.
ghost use Rattle.std.specs.Prelude.{◌≡◌, ◌≤◌, ◌*◌, ◌↔◌, List, ℕ, suc, length};
ghost use Rattle.tt.specs.Forest.{Forest, size};
ghost use Rattle.mbe_matcher.specs.Fronts.{StopsAt, Waits};
ghost use Rattle.mbe_matcher.specs.Marks.{Note, notes_of};
ghost use Rattle.mbe_matcher.specs.Readings.{Reading, IsInstance, IsNoInstance, IsReadBy, IsAmbiguous};
ghost use Rattle.mbe_pattern.specs.Patterns.{Pattern};
ghost use Rattle.mbe_program.specs.Answers.{HasNoRun, HasOneRun, HasTwoRuns, Reach};
ghost use Rattle.mbe_program.specs.Laying.{places_in};
ghost use Rattle.mbe_program.specs.Numbering.{IsStuckRun, parts_of};
ghost use Rattle.mbe_program.specs.Program.{Instruction, program_of};
ghost use Rattle.mbe_program.specs.Runs.{IsRun};
ghost use Rattle.mbe_program.specs.Searching.{log_of, HaveAllGoneOn};
ghost use Rattle.mbe_program.specs.Tables.{Table, IsTableOf};
ghost use Rattle.mbe_program.specs.declared.search.Search.{Search};

/// States that the runs of a pattern's program are the readings of the pattern, with the same notes: each reading is a run, each run is a
/// reading, and readings that differ have notes that differ.
pub fn runs_are_readings()
    ensures runs { (pattern : Pattern) → (input : Forest) → (reading : Reading) → IsInstance pattern input reading → IsRun (program_of pattern) input (notes_of pattern reading) }
    ensures reads { (pattern : Pattern) → (input : Forest) → (notes : List Note) → IsRun (program_of pattern) input notes → (reading : Reading) × IsInstance pattern input reading × (notes ≡ notes_of pattern reading) }
    ensures differ { (pattern : Pattern) → (input : Forest) → (one other : Reading) → IsInstance pattern input one → IsInstance pattern input other → notes_of pattern one ≡ notes_of pattern other → one ≡ other }
{}

/// States that an input is an instance of a pattern in as many ways as the pattern's program runs through it: in none, in exactly one, or in
/// two and maybe more.
pub fn as_many_runs()
    ensures none { (pattern : Pattern) → (input : Forest) → HasNoRun (program_of pattern) input ↔ IsNoInstance pattern input }
    ensures one { (pattern : Pattern) → (input : Forest) → (notes : List Note) → HasOneRun (program_of pattern) input notes ↔ ((reading : Reading) × IsReadBy pattern input reading × (notes ≡ notes_of pattern reading)) }
    ensures two { (pattern : Pattern) → (input : Forest) → HasTwoRuns (program_of pattern) input ↔ IsAmbiguous pattern input }
{}

/// States that a pattern stops where the steps of its program do: the farthest flat place that they come to is the farthest one before which
/// a part of the pattern comes next.
pub fn stops_where_runs_stop()
    ensures { (pattern : Pattern) → (input : Forest) → (at : ℕ) → Reach (program_of pattern) input at ↔ StopsAt pattern input at }
{}

/// States that a part of a pattern waits at a flat place of an input where some steps of the pattern's program come to the part there, and the
/// trees are not what it requires.
pub fn waits_where_runs_are_stuck()
    ensures { (pattern : Pattern) → (input : Forest) → (at number : ℕ) → Waits pattern input at number ↔ IsStuckRun (program_of pattern) (parts_of pattern) input at number }
{}

/// States that a search is short: it has at most two arrivals for each place of the program before each position of the input, and an input
/// has at most two positions for each token, and two more.
pub fn searches_are_short()
    ensures arrivals { (program : List Instruction) → (input : Forest) → (table : Table) → (search : Search) → IsTableOf program input table → HaveAllGoneOn program table search → length (log_of search) ≤ 2 * (suc (length program) * table.count) }
    ensures positions { (input : Forest) → suc (places_in input) ≤ 2 * suc (size input) }
{}
