//! What a caller says of conditions.
ghost use Rattle.std.specs.Prelude.{◌≡◌, ◌⊎◌, ◌==◌, IfOk, IfErr, IsUtf8, OnOk};
ghost use Rattle.std.specs.List.{after_first, before_first};
ghost use Rattle.expand_items.specs.Cfg.{known_of, with_atom};
ghost use Rattle.syntax_cfg.specs.Cfg.{said};
ghost use Rattle.app_c.specs.Conditions.{atom_of, IsNotSaid, IsSaid};
ghost use Rattle.app_c.specs.Failures.{placeless};

use crate::failure::Failure;
use crate::fault::Fault;
use crate::text::text_in;
use expand_items::CfgOptions;
use std::alloc::{AllocError, Global};
use syntax_cfg::{Cfg, cfg_in};

// Adds what is true.
fn insert(alloc: Global, options: &mut CfgOptions, it: Cfg<'_>) -> Result<(), AllocError>
    ensures { OnOk result (known_of options.new ≡ with_atom (atom_of (said it.entry)) (known_of options.old)) }
{
    match it.value {
        None => options.insert_flag(alloc, it.name),
        Some(value) => options.insert_key_value(alloc, it.name, value),
    }
}

// Returns the text before the first 0, and what is behind that; without a 0, all of it, and nothing.
fn first_text(texts: &str) -> (&str, &str)
    ensures text { result.0.now ≡ before_first (λ byte. byte == 0) texts.now }
    ensures behind { result.1.now ≡ after_first (λ byte. byte == 0) texts.now }
{
    match texts.split_once('\0') {
        Some((text, behind)) => (text, behind),
        None => (texts, ""),
    }
}

/// Returns what these texts, each with a 0 behind it, say of conditions.
pub(crate) fn conditions_in(alloc: Global, cfg: &[u8]) -> Result<CfgOptions, Failure>
    ensures utf8 { IfOk result (λ _. IsUtf8 cfg.now) }
    ensures ok { IfOk result (λ options. IsSaid cfg.now (known_of options)) }
    ensures err { IfErr result (λ failure. IsNotSaid cfg.now failure ⊎ (failure ≡ placeless Fault.Memory)) }
{
    let mut rest = text_in(cfg)?;
    let mut options = CfgOptions::new(alloc);
    let mut count = 0usize;
    while !rest.is_empty() {
        let (text, behind) = first_text(rest);
        let Some(it) = cfg_in(text) else {
            return Err(Failure {
                fault: Fault::NoCfg,
                at: count,
            });
        };
        insert(alloc, &mut options, it)?;
        count += 1;
        rest = behind;
    }
    Ok(options)
}
