//! The expanded text without the macros that it defines but does not need.
use app_files::Failure;
use expand_unused::{DropRulesError, without_rules};

// Returns the failure of a text of that name whose definitions cannot be dropped.
fn refused(rt: &HostRuntime, name: &str, error: DropRulesError) -> Failure {
    let message = match error {
        DropRulesError::Text(fault) => format!(in rt.alloc();
            "{name}: no definitions can be dropped, because the expanded text does not read back: {fault}"
        ),
        DropRulesError::Memory => return Failure::Memory,
    };
    match message {
        Ok(message) => Failure::from_message(rt, message.as_str()),
        Err(_refused) => Failure::Memory,
    }
}

/// Which definitions are left out of an expanded text.
#[derive(Clone, Copy)]
pub enum Drops {
    /// None.
    Nothing,
    /// Those that nothing in it needs, but for exported ones.
    Unexported,
    /// All that nothing in it needs.
    Unneeded,
}

/// Returns the expanded text of that name without the definitions of macros that nothing in it needs, the exported ones too if
/// `drops_exported`. If `only` is given, only definitions of that name are dropped.
pub fn without_definitions(
    rt: &HostRuntime,
    name: &str,
    text: &str,
    only: Option<&str>,
    drops_exported: bool,
) -> Result<String, Failure> {
    match without_rules(rt.alloc(), text, only, drops_exported) {
        Ok(written) => Ok(written),
        Err(error) => Err(refused(rt, name, error)),
    }
}
