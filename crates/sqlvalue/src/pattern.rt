//! The patterns of LIKE.

ghost use Rattle.std.specs.Prelude.{◌≡◌, ◌==◌, ◌&&◌, ◌||◌, [], drop, length, nat_lt, slice_index_or};
ghost use Rattle.definitions.specs.Pattern as spec;

/// Places in a text and in a pattern.
#[derive(Clone, Copy)]
struct Places {
    text: usize,
    pattern: usize,
}

/// Whether a text fits a pattern, in which `%` stands for any run of characters, `_` for one, and another character
/// for itself (ISO/IEC 9075:1992, 8.5). Takes at most as many steps as the product of the lengths.
pub fn like(text: &str, pattern: &str) -> bool
    ensures { result ≡ spec.fits pattern.now text.now }
{
    fits(text.as_bytes(), pattern.as_bytes())
}

/// Where a character doesn't fit, the run that the last `%` stands for is made longer by one. Those before it need
/// no other try: what it leaves is an ending of what a longer run of theirs would leave.
pub(crate) fn fits(text: &[u8], pattern: &[u8]) -> bool
    ensures { result ≡ spec.fits pattern.now text.now }
{
    let mut at = Places {
        text: 0,
        pattern: 0,
    };
    let mut last: Option<Places> = None;
    while at.text < text.len() {
        if is_any_run(pattern, at.pattern) {
            at.pattern += 1;
            last = Some(at);
        } else if is_one(pattern, at.pattern, text[at.text]) {
            at.text += 1;
            at.pattern += 1;
        } else if let Some(run) = last {
            at = Places {
                text: run.text + 1,
                pattern: run.pattern,
            };
            last = Some(at);
        } else {
            return false;
        }
    }
    are_any_runs(pattern, at.pattern)
}

/// Whether `%` stands at a place.
fn is_any_run(pattern: &[u8], place: usize) -> bool
    ensures { result ≡ (nat_lt place (length pattern.now) && (slice_index_or pattern.now place 0 == 37)) }
{
    pattern.get(place).copied() == Some(b'%')
}

/// Whether what stands at a place stands for this one character.
fn is_one(pattern: &[u8], place: usize, character: u8) -> bool
    ensures { result ≡ (nat_lt place (length pattern.now) &&
        ((slice_index_or pattern.now place 0 == 95) || (slice_index_or pattern.now place 0 == character))) }
{
    match pattern.get(place) {
        Some(p) => *p == b'_' || *p == character,
        None => false,
    }
}

/// Whether `%` stands at each place from one on.
fn are_any_runs(pattern: &[u8], from: usize) -> bool
    ensures { result ≡ spec.fits (drop from pattern.now) [] }
{
    for place in from..pattern.len() {
        if pattern[place] != b'%' {
            return false;
        }
    }
    true
}
