//! Examples of macros, by the calls of `mbe_grammar`, `mbe_matcher`, `mbe_program` and `mbe_rules`.
#![tactic(auto)]

#[cfg(test)]
mod arm_faults;
#[cfg(test)]
mod captures;
#[cfg(test)]
mod fragments;
#[cfg(test)]
mod handed_on;
#[cfg(test)]
mod limited;
#[cfg(test)]
mod macros;
#[cfg(test)]
mod pattern_faults;
#[cfg(test)]
mod reach;
#[cfg(test)]
mod reaches;
#[cfg(test)]
mod reaches_by_name;
#[cfg(test)]
mod shown;
#[cfg(test)]
mod templates;
#[cfg(test)]
mod texts;
#[cfg(test)]
mod transcribed;
#[cfg(test)]
mod waiting;
#[cfg(test)]
mod ways;
#[cfg(test)]
mod written;
