//! A limit of the tokens that are written.
ghost use Rattle.std.specs.Prelude.{◌≡◌, ◌+◌, option_map, IfOk, IfErr};
ghost use Rattle.mbe_rules.specs.declared.transcribe_error.TranscribeError.TheVariants.{OverLimit};
ghost use Rattle.mbe_rules.specs.Limits.{IsOver};

use crate::transcribe_error::TranscribeError;

/// Returns how many tokens may still be written after so many more, given how many may be; without a limit, any number. Fails if more are
/// written than may be.
pub(crate) fn left_after(left: Option<usize>, more: usize) -> Result<Option<usize>, TranscribeError>
    ensures ok { IfOk result (λ rest. left ≡ option_map (λ it. it + more) rest) }
    ensures err { IfErr result (λ error. (error ≡ OverLimit) × IsOver left more) }
{
    match left {
        None => Ok(None),
        Some(left) if more > left => Err(TranscribeError::OverLimit),
        Some(left) => Ok(Some(left - more)),
    }
}
