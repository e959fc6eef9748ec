//! How a test passes.
use std::test::Fail;
use tt_base::TtFault;

/// A test passes where what it asks is so.
pub(crate) fn holds(is_so: Result<bool, TtFault>) -> Result<(), Fail> {
    match is_so {
        Ok(true) => Ok(()),
        Ok(false) => Err(Fail::new("it is not so")),
        Err(fault) => Err(fault.into()),
    }
}
