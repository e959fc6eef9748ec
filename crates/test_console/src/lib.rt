//! Examples of lines and runs, by the calls of `app_language` and `app_console`: known values next to those of the calls.
#![tactic(auto)]

#[cfg(test)]
mod bad_lines;
#[cfg(test)]
mod fakes;
#[cfg(test)]
mod good_lines;
#[cfg(test)]
mod holds;
#[cfg(test)]
mod runs;
