//! The first and the last line of a text, if only white space is in them.
ghost use Rattle.std.specs.Prelude.{◌≡◌, MatchOption, IfSome, None, Some, drop, take, option_map};
ghost use Rattle.std.specs.Str.{IsCharBoundary};
ghost use Rattle.std.specs.String.Boundary.{IsSplitPoint};
ghost use Rattle.syntax_edit.specs.Lines.{is_blank, behind_line, before_line};

// Returns whether a byte is a space, a tab or a carriage return.
fn is_blank(byte: u8) -> bool
    ensures { result ≡ is_blank byte }
{
    matches!(byte, b' ' | b'\t' | b'\r')
}

// Returns where the first line of a text ends, if that line is blank. `is_last` says that it may end with the text.
fn first_end(is_last: bool, text: &str) -> Option<usize>
    ensures value { option_map (λ end. drop end text.now) result ≡ behind_line is_last text.now }
    ensures boundary { IfSome result (λ end. IsCharBoundary text.now end) }
{
    let bytes = text.as_bytes();
    let mut end = 0;
    while end < bytes.len() {
        let byte = bytes[end];
        if byte == b'\n' {
            return Some(end + 1);
        }
        if !is_blank(byte) {
            return None;
        }
        end += 1;
    }
    if is_last { Some(bytes.len()) } else { None }
}

/// Returns where the last line of a text begins, if that line is blank. `is_first` says that it may begin with the text.
pub fn last_begin(is_first: bool, text: &str) -> Option<usize>
    ensures value { option_map (λ begin. take begin text.now) result ≡ before_line is_first text.now }
    ensures boundary { IfSome result (λ begin. IsSplitPoint text.now begin) }
{
    let bytes = text.as_bytes();
    let mut begin = bytes.len();
    while begin > 0 {
        let byte = bytes[begin - 1];
        if byte == b'\n' {
            return Some(begin);
        }
        if !is_blank(byte) {
            return None;
        }
        begin -= 1;
    }
    if is_first { Some(0) } else { None }
}

/// Returns what follows the first line of a text, if that line is blank. `is_last` says that it may end with the text.
pub fn behind_line(is_last: bool, text: &str) -> Option<&str>
    ensures { MatchOption result (behind_line is_last text.now ≡ None) (λ behind. behind_line is_last text.now ≡ Some behind.now) }
{
    let end = first_end(is_last, text)?;
    let (_, behind) = text.split_at_checked(end)?;
    Some(behind)
}
