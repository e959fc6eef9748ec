//! The state of an expansion: the macros in scope and those that the crate exports, and the findings.
ghost use Rattle.std.specs.Prelude.{◌≡◌, ◌-◌, List, None, IfOk, OnOk};
ghost use Rattle.tt.specs.Iters.{rest_of};
ghost use Rattle.expand_text.specs.Scopes.{Macro, AreReady};
ghost use Rattle.expand_text.specs.Contexts.{Context as ContextOf, IsContext, IsOutside, IsSameBudget, HasCaller, new_context, with_finding, left_in_scope, tokens_by, tokens_left, inside_call, outside_call, config_of};

use crate::caller::Caller;
use crate::config::Config;
use crate::fault::{Finding, MacroFault};
use crate::scope::Scope;
use std::alloc::{AllocError, Global};
use tt::Symbol;

/// The state of an expansion.
#[derive(Drop)]
pub(crate) struct Context {
    pub(crate) scope: Scope,
    /// The macros that the crate exports.
    pub(crate) exported: Scope,
    /// The findings, in order.
    pub(crate) findings: Vec<Finding>,
    /// Whether no other call is expanded in the result of the call of the text.
    pub(crate) is_over: bool,
    /// The calls that wrote what has findings, and those that wrote what is expanded now.
    pub(crate) callers: Vec<Caller>,
    // the number of the caller that wrote what is expanded now; none in the text itself
    caller: Option<usize>,
    // how many tokens more may be written for the call of the text
    left: usize,
}

/// What is restored behind a call: how many findings and callers there were, and the caller.
#[derive(Clone, Copy)]
pub(crate) struct Outside {
    findings: usize,
    callers: usize,
    caller: Option<usize>,
}

impl Context {
    /// Returns the state before the first tree of a crate that exports these macros.
    pub(crate) fn new(alloc: Global, exported: Scope) -> Context
        ensures { (macros : List Macro) → AreReady macros exported.macros.items → IsContext (new_context macros) result }
    {
        Context {
            scope: Scope::new(alloc),
            exported,
            findings: Vec::new(alloc),
            is_over: false,
            callers: Vec::new(alloc),
            caller: None,
            left: 0,
        }
    }

    /// Adds a finding about the macro of that name.
    pub(crate) fn find(
        &mut self,
        name: &Symbol,
        at: u32,
        fault: MacroFault,
        defined_at: Option<u32>,
    ) -> Result<(), AllocError>
        ensures found { OnOk result ((context : ContextOf) → IsContext context self.old → IsContext (with_finding (record { name = name.now; at = at; fault = fault; defined_at = defined_at; expected = None; caller = None }) context) self.new) }
        ensures kept { OnOk result (IsSameBudget self.old self.new) }
    {
        self.find_expecting(name, at, fault, defined_at, None)
    }

    /// Adds a finding about the macro of that name, which expects something else there.
    pub(crate) fn find_expecting(
        &mut self,
        name: &Symbol,
        at: u32,
        fault: MacroFault,
        defined_at: Option<u32>,
        expected: Option<Symbol>,
    ) -> Result<(), AllocError>
        ensures found { OnOk result ((context : ContextOf) → IsContext context self.old → IsContext (with_finding (record { name = name.now; at = at; fault = fault; defined_at = defined_at; expected = expected; caller = None }) context) self.new) }
        ensures kept { OnOk result (IsSameBudget self.old self.new) }
    {
        let finding = Finding {
            name: name.clone()?,
            at,
            fault,
            defined_at,
            expected,
            caller: self.caller,
        };
        if self.findings.push(finding).is_err() {
            return Err(AllocError);
        }
        self.is_over = self.is_over || (fault.ends_call() && self.caller.is_some());
        Ok(())
    }

    /// Keeps the first `kept` macros in scope, or all.
    pub(crate) fn leave(&mut self, kept: Option<usize>)
        ensures left { (context : ContextOf) → IsContext context self.old → IsContext (left_in_scope kept context) self.new }
        ensures kept { IsSameBudget self.old self.new }
    {
        if let Some(len) = kept {
            self.scope.leave(len);
        }
    }

    /// Returns how many tokens an arm may write for the next call.
    pub(crate) fn tokens_left(&self, config: &Config<'_>) -> usize
        ensures known { (context : ContextOf) → IsContext context self.now → result ≡ tokens_left (config_of config.now) context }
        ensures value { result ≡ tokens_by self.now.caller config.now.max_tokens self.now.left }
    {
        match self.caller {
            None => config.max_tokens,
            Some(_) => self.left,
        }
    }

    /// Enters the expansion of a call of the macro of that name that begins at a byte, for which an arm wrote so many tokens. Returns what
    /// `leave_call` restores.
    pub(crate) fn enter_call(
        &mut self,
        config: &Config<'_>,
        name: &Symbol,
        at: u32,
        tokens: usize,
    ) -> Result<Outside, AllocError>
        ensures entered { OnOk result ((context : ContextOf) → IsContext context self.old → IsContext (inside_call (config_of config.now) name.now at tokens context) self.new) }
        ensures outside { IfOk result (λ outside. (context : ContextOf) → IsContext context self.old → IsOutside context outside) }
        ensures left { OnOk result (self.new.left ≡ tokens_by self.old.caller config.now.max_tokens self.old.left - tokens) }
        ensures caller { OnOk result (HasCaller self.new) }
        ensures before { IfOk result (λ outside. outside.caller ≡ self.old.caller) }
    {
        let outside = Outside {
            findings: self.findings.len(),
            callers: self.callers.len(),
            caller: self.caller,
        };
        let left = self.tokens_left(config).saturating_sub(tokens);
        let caller = Caller {
            name: name.clone()?,
            at,
            caller: self.caller,
        };
        if self.callers.push(caller).is_err() {
            return Err(AllocError);
        }
        self.left = left;
        self.caller = Some(outside.callers);
        Ok(outside)
    }

    /// Leaves the expansion of a call. The call is no caller any more if nothing was found in its expansion.
    pub(crate) fn leave_call(&mut self, outside: Outside)
        ensures known { (before inside : ContextOf) → IsOutside before outside → IsContext inside self.old → IsContext (outside_call before inside) self.new }
        ensures left { self.new.left ≡ self.old.left }
        ensures caller { self.new.caller ≡ outside.caller }
    {
        if self.findings.len() == outside.findings {
            self.callers.truncate(outside.callers);
        }
        self.caller = outside.caller;
        self.is_over = self.is_over && self.caller.is_some();
    }
}
