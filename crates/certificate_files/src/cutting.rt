//! A file, cut into the texts of blocks.

ghost use Rattle.std.specs.Prelude.{◌≡◌, ◌≤◌, ◌<◌, ◌==◌, length, take, drop, bytes_eq, position};
ghost use Rattle.definitions.specs.Certificates.File as spec;
ghost use Rattle.definitions.specs.Certificates.File.{lines_of, own_text, lines_behind, earlier, version_among};
ghost use Rattle.definitions.specs.Certificates.Text.{end_line};
ghost use Rattle.definitions.specs.Estimates.Version.{current_version};
ghost use Rattle.plan_tree.specs.Versions.{version_of};
ghost use Rattle.certificate_files.specs.FirstLine.{IsFirstLine};

use certificate::{Version, Word};

/// Where the text that the bytes begin with ends (own): behind the next line END, or with the bytes.
pub(crate) fn text_end(bytes: &[u8]) -> usize
    ensures within { result ≤ length bytes.now }
    ensures own { take result bytes.now ≡ own_text (lines_of bytes.now) }
    ensures rest { lines_of (drop result bytes.now) ≡ lines_behind (lines_of bytes.now) }
{
    let mut at = 0;
    'lines: while at < bytes.len() {
        let left = &bytes[at..];
        let end = line_end(left);
        at += end;
        if is_last(&left[..end]) {
            return at;
        }
    }
    at
}

/// The version of the plan space that the text speaks of, by its first line (own).
pub(crate) fn version_in(bytes: &[u8]) -> Version
    ensures { version_of result ≡ spec.version_of current_version (lines_of bytes.now) }
{
    version_named(&bytes[..line_end(bytes)])
}

/// The version that a first line names: the current one where it names no earlier one.
fn version_named(line: &[u8]) -> Version
    ensures { version_of result ≡ version_among (earlier current_version) current_version line.now }
{
    if line == Word::Certificate(Version::One).bytes() {
        return Version::One;
    }
    if line == Word::Certificate(Version::Two).bytes() {
        return Version::Two;
    }
    Version::Three
}

/// Whether a line is the last of a text.
fn is_last(line: &[u8]) -> bool
    ensures { result ≡ bytes_eq line.now end_line }
{
    line == Word::End.bytes()
}

/// Where the first line ends.
fn line_end(bytes: &[u8]) -> usize
    ensures within { result ≤ length bytes.now }
    ensures some { 0 < length bytes.now → 0 < result }
    ensures line { 0 < length bytes.now → IsFirstLine bytes.now result }
{
    match line_feed_in(bytes) {
        Some(place) => place + 1,
        None => bytes.len(),
    }
}

/// Where the first LF stands.
fn line_feed_in(bytes: &[u8]) -> Option<usize>
    ensures { result ≡ position (λ byte. byte == 10) bytes.now }
{
    bytes.iter().position(|byte| *byte == b'\n')
}
