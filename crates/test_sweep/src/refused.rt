//! What a call hands back if it is refused.
use tt::{Leaf, Refused, TtFault};

/// The fault of a call that handed back a leaf, if that is the leaf that it was given.
pub fn handed_back(refused: Refused<Leaf>, given: &Leaf) -> Result<bool, TtFault> {
    if refused.value == *given {
        return Err(refused.fault);
    }
    Ok(false)
}

/// What a call made of a value that it took. A value that it handed back is put in its place.
pub fn taken<M, T: Drop>(made: Result<M, Refused<T>>, place: &mut T) -> Result<M, TtFault> {
    match made {
        Ok(made) => Ok(made),
        Err(refused) => {
            *place = refused.value;
            Err(refused.fault)
        }
    }
}
