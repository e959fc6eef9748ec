//! Laws of the grammar. Each is the contract of a function that does nothing.
ghost use Rattle.std.specs.Prelude.{◌≡◌, ◌<◌, ◌⊎◌, ◌↔◌, ℕ, Bool, true, false, List, Option, None, Some, option_map};
ghost use Rattle.tt.specs.Forest.{Forest};
ghost use Rattle.mbe_grammar.specs.declared.event.Event.{Event};
ghost use Rattle.mbe_grammar.specs.Derivations.{Derives, Place, Refuses};
ghost use Rattle.mbe_grammar.specs.Expressions.{name, Answers};
ghost use Rattle.mbe_grammar.specs.Fragments.{Reaches, ReachesDeep, IsBlock};
ghost use Rattle.mbe_grammar.specs.Names.{Name, start};
ghost use Rattle.mbe_grammar.specs.Parses.{Parses};
ghost use Rattle.mbe_grammar.specs.Positions.{Position, plain};
ghost use Rattle.mbe_grammar.specs.Rust.{stands};
ghost use Rattle.mbe_grammar.specs.Table.{rust_rules};
ghost use Rattle.mbe_pattern.specs.declared.pattern.GrammarFragment.{GrammarFragment as Fragment};

/// States that the grammar has an answer for each fragment and any trees.
pub fn has_answer()
    ensures { (fragment : Fragment) → (trees : Forest) → (count : Option ℕ) × Reaches fragment trees count }
{}

/// States that the grammar has only one answer.
pub fn one_answer()
    ensures { (fragment : Fragment) → (trees : Forest) → (one other : Option ℕ) → Reaches fragment trees one → Reaches fragment trees other → one ≡ other }
{}

/// States that a fragment takes at least one tree.
pub fn takes_a_tree()
    ensures { (fragment : Fragment) → (trees : Forest) → (count : ℕ) → Reaches fragment trees (Some count) → 0 < count }
{}

/// States that the grammar has an answer for each fragment and any trees, if it looks into subtrees.
pub fn has_deep_answer()
    ensures { (fragment : Fragment) → (trees : Forest) → (count : Option ℕ) × ReachesDeep fragment trees count }
{}

/// States that this answer is the only one.
pub fn one_deep_answer()
    ensures { (fragment : Fragment) → (trees : Forest) → (one other : Option ℕ) → ReachesDeep fragment trees one → ReachesDeep fragment trees other → one ≡ other }
{}

/// States that a fragment takes as many trees with a look into subtrees as without, or none.
pub fn deep_is_shallow()
    ensures { (fragment : Fragment) → (trees : Forest) → (deep shallow : Option ℕ) → ReachesDeep fragment trees deep → Reaches fragment trees shallow → (deep ≡ shallow) ⊎ (deep ≡ None) }
{}

/// States that trees are the contents of the fragment `block` or are not, and never both.
pub fn one_block_answer()
    ensures has { (trees : Forest) → (answer : Bool) × IsBlock trees answer }
    ensures one { (trees : Forest) → (one other : Bool) → IsBlock trees one → IsBlock trees other → one ≡ other }
{}

/// States that the table is the page, name by name: from the index of a name on, the rules have the answers of the name's expression.
pub fn table_is_the_page()
    ensures { (noting : Bool) → (which : Name) → (from : Position) → (answer : Option Position) → Parses noting rust_rules (start which) from answer ↔ Answers noting stands (name which) from answer }
{}

/// States that the trees of any place have a derivation, or are refused somewhere.
pub fn are_judged()
    ensures { (own : Place) → ((events : List Event) × Derives rust_rules own.name own.trees events) ⊎ ((at : Place) × Refuses rust_rules own at) }
{}

/// States that trees with a derivation are not refused.
pub fn never_both()
    ensures { (own : Place) → (events : List Event) → (at : Place) → Derives rust_rules own.name own.trees events → Refuses rust_rules own at → ⊥ }
{}

/// States that trees have only one derivation.
pub fn one_derivation()
    ensures { (name : ℕ) → (trees : Forest) → (events other : List Event) → Derives rust_rules name trees events → Derives rust_rules name trees other → events ≡ other }
{}

/// States that trees are refused at only one place.
pub fn one_refusal()
    ensures { (own at other : Place) → Refuses rust_rules own at → Refuses rust_rules own other → at ≡ other }
{}

/// States that an expression reaches as far without a log as with one: contents never decide how far anything reaches.
pub fn noting_changes_nothing()
    ensures { (name : ℕ) → (from : Position) → (answer : Option Position) → Parses true rust_rules name from answer → Parses false rust_rules name (plain from) (option_map plain answer) }
{}
