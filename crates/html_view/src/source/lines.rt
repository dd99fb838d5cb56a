//! The line of a tag.
ghost use Rattle.std.specs.Prelude.{◌≡◌, ◌≤◌, IfSome, length};
ghost use Rattle.std.specs.Option.{option_map};
ghost use Rattle.html_view.specs.Lines.{before_line, begins_behind, behind_end, behind_line, trim_end, trim_start};

// White space within a line.
const BLANKS: [char; 2] = [' ', '\t'];

/// What stands before the last line, if that line has only blanks. The first line begins with the text, if
/// `begins_line` says so.
pub(crate) fn before_line(text: &str, begins_line: bool) -> Option<&str>
    ensures { option_map (λ before. before.now) result ≡ before_line begins_line text.now }
{
    let before = trim_end(text);
    if begins_behind(before, begins_line) {
        Some(before)
    } else {
        None
    }
}

/// What stands behind the first line, if that line has only blanks.
pub(crate) fn behind_line(text: &str) -> Option<&str>
    ensures behind { option_map (λ behind. behind.now) result ≡ behind_line text.now }
    ensures less { IfSome result (λ behind. length behind.now ≤ length text.now) }
{
    behind_end(trim_start(text))
}

fn trim_end(text: &str) -> &str
    ensures { result.now ≡ trim_end text.now }
{
    text.trim_end_matches(BLANKS)
}

fn trim_start(text: &str) -> &str
    ensures value { result.now ≡ trim_start text.now }
    ensures less { length result.now ≤ length text.now }
{
    text.trim_start_matches(BLANKS)
}

// Whether a line begins behind a text.
fn begins_behind(text: &str, begins_line: bool) -> bool
    ensures { result ≡ begins_behind begins_line text.now }
{
    if text.is_empty() {
        begins_line
    } else {
        text.ends_with('\n')
    }
}

// What stands behind the end of a line, if a line ends here.
fn behind_end(text: &str) -> Option<&str>
    ensures behind { option_map (λ behind. behind.now) result ≡ behind_end text.now }
    ensures less { IfSome result (λ behind. length behind.now ≤ length text.now) }
{
    if text.is_empty() {
        return Some(text);
    }
    match text.strip_prefix("\r\n") {
        Some(behind) => Some(behind),
        None => text.strip_prefix('\n'),
    }
}
