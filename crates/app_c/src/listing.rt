//! What a caller gets of an expansion: bytes, and words about the findings.
ghost use Rattle.std.specs.Prelude.{◌≡◌, ◌++◌, [], length, IfOk, IfErr, OnOk};
ghost use Rattle.app_c.specs.Failures.{placeless};
ghost use Rattle.app_c.specs.Listings.{caller_words, callers_bytes, callers_words, detail_of, ended, expected_at, expected_bytes, finding_bytes, finding_words, findings_bytes, findings_words, word_of, IsListingOf};

use crate::failure::{Failure, macro_fault};
use crate::fault::Fault;
use expand_text::{Caller, Expanded, Finding, MacroFault};
use std::alloc::{AllocError, Global};
use tt::Symbol;

/// The bytes and the words that a caller gets.
#[derive(Drop)]
pub(crate) struct Listing {
    pub(crate) bytes: Vec<u8>,
    pub(crate) words: Vec<usize>,
}

// Returns the word for a number, or for none.
fn word_of(number: Option<usize>) -> usize
    ensures { result ≡ word_of number }
{
    match number {
        Some(number) => number,
        None => usize::MAX,
    }
}

// Returns the word for a byte of the text, or for none.
fn byte_word(byte: Option<u32>) -> usize
    ensures { result ≡ word_of byte }
{
    match byte {
        Some(byte) => byte as usize,
        None => usize::MAX,
    }
}

// Returns what else is said of a fault.
fn detail_of(fault: MacroFault) -> usize
    ensures { result ≡ detail_of fault }
{
    match fault {
        MacroFault::Definition(error) => error.arm,
        MacroFault::Captured(binding) => binding as usize,
        MacroFault::Ambiguous(arm) => arm,
        MacroFault::Expansion(error) => error.arm,
        _ => 0,
    }
}

impl Listing {
    /// Returns a listing of nothing.
    pub(crate) fn new(alloc: Global) -> Listing
        ensures bytes { result.bytes.items ≡ [] }
        ensures words { result.words.items ≡ [] }
    {
        Listing {
            bytes: Vec::new(alloc),
            words: Vec::new(alloc),
        }
    }

    // Adds a text and the 0 that ends it, and returns the place of the text.
    fn put_text(&mut self, text: &str) -> Result<usize, AllocError>
        ensures place { IfOk result (λ place. place ≡ length self.old.bytes.items) }
        ensures bytes { OnOk result (self.new.bytes.items ≡ self.old.bytes.items ++ ended text.now) }
        ensures words { self.new.words.items ≡ self.old.words.items }
    {
        let place = self.bytes.len();
        self.bytes.extend_from_slice(text.as_bytes())?;
        self.bytes.push(0)?;
        Ok(place)
    }

    // Adds what is expected, if that is known, and returns its place.
    fn put_expected(&mut self, expected: &Option<Symbol>) -> Result<Option<usize>, AllocError>
        ensures place { IfOk result (λ place. place ≡ expected_at expected.now (length self.old.bytes.items)) }
        ensures bytes { OnOk result (self.new.bytes.items ≡ self.old.bytes.items ++ expected_bytes expected.now) }
        ensures words { self.new.words.items ≡ self.old.words.items }
    {
        match expected {
            None => Ok(None),
            Some(text) => Ok(Some(self.put_text(text.as_str())?)),
        }
    }

    // Adds a finding.
    fn put_finding(&mut self, finding: &Finding) -> Result<(), AllocError>
        ensures bytes { OnOk result (self.new.bytes.items ≡ self.old.bytes.items ++ finding_bytes finding.now) }
        ensures words { OnOk result (self.new.words.items ≡ self.old.words.items ++ finding_words (length self.old.bytes.items) finding.now) }
    {
        let name = self.put_text(finding.name.as_str())?;
        let expected = self.put_expected(&finding.expected)?;
        let words = [
            macro_fault(finding.fault).number() as usize,
            finding.at as usize,
            byte_word(finding.defined_at),
            word_of(finding.caller),
            detail_of(finding.fault),
            name,
            word_of(expected),
        ];
        self.words.extend_from_slice(&words)
    }

    // Adds findings.
    fn put_findings(&mut self, findings: &[Finding]) -> Result<(), AllocError>
        ensures bytes { OnOk result (self.new.bytes.items ≡ self.old.bytes.items ++ findings_bytes findings.now) }
        ensures words { OnOk result (self.new.words.items ≡ self.old.words.items ++ findings_words (length self.old.bytes.items) findings.now) }
    {
        for finding in findings {
            self.put_finding(finding)?;
        }
        Ok(())
    }

    // Adds a caller.
    fn put_caller(&mut self, caller: &Caller) -> Result<(), AllocError>
        ensures bytes { OnOk result (self.new.bytes.items ≡ self.old.bytes.items ++ ended caller.now.name) }
        ensures words { OnOk result (self.new.words.items ≡ self.old.words.items ++ caller_words (length self.old.bytes.items) caller.now) }
    {
        let name = self.put_text(caller.name.as_str())?;
        let words = [caller.at as usize, word_of(caller.caller), name];
        self.words.extend_from_slice(&words)
    }

    // Adds callers.
    fn put_callers(&mut self, callers: &[Caller]) -> Result<(), AllocError>
        ensures bytes { OnOk result (self.new.bytes.items ≡ self.old.bytes.items ++ callers_bytes callers.now) }
        ensures words { OnOk result (self.new.words.items ≡ self.old.words.items ++ callers_words (length self.old.bytes.items) callers.now) }
    {
        for caller in callers {
            self.put_caller(caller)?;
        }
        Ok(())
    }

    /// Returns the listing of an expanded text.
    pub(crate) fn of(alloc: Global, expanded: &Expanded) -> Result<Listing, Failure>
        ensures ok { IfOk result (λ it. IsListingOf expanded.now it.bytes.items it.words.items) }
        ensures err { IfErr result (λ failure. failure ≡ placeless Fault.Memory) }
    {
        let mut listing = Listing::new(alloc);
        listing.put_text(expanded.text.as_str())?;
        listing
            .words
            .extend_from_slice(&[expanded.text.len(), expanded.findings.len()])?;
        listing.put_findings(&expanded.findings)?;
        listing.put_callers(&expanded.callers)?;
        Ok(listing)
    }
}
