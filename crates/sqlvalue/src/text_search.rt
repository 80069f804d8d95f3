//! A search for a text in another.

ghost use Rattle.std.specs.Prelude.{◌≡◌, ◌<◌, ◌+◌, ℕ, false, length, drop};
ghost use Rattle.std.specs.Bool.{OnTrue};
ghost use Rattle.sqlvalue.specs.LikePatterns as spec;

/// Whether a text stands somewhere in another. Eight places at which its first two characters don't stand are passed at once.
pub(crate) fn contains(text: &[u8], needle: &[u8]) -> bool
    ensures { result ≡ spec.contains needle.now text.now }
{
    let mut place = 0;
    while place < text.len() {
        if can_pass_eight(text, place, needle) {
            place += 8;
        } else if begins_with(&text[place..], needle) {
            return true;
        } else {
            place += 1;
        }
    }
    needle.is_empty()
}

/// Whether it is known that a text begins at none of eight places from one on.
fn can_pass_eight(text: &[u8], place: usize, needle: &[u8]) -> bool
    requires { place < length text.now }
    ensures within { OnTrue result (place + 8 < length text.now) }
    ensures none { OnTrue result ((k : ℕ) → k < 8 → spec.begins_with needle.now (drop (place + k) text.now) ≡ false) }
{
    if needle.len() < 2 || text.len() - place < 9 {
        return false;
    }
    stand_at_none_of_eight(&text[place..place + 9], needle[0], needle[1])
}

/// Whether two characters stand beside each other at none of the first eight places. It looks at all of them, which takes less than to stop.
fn stand_at_none_of_eight(text: &[u8], first: u8, second: u8) -> bool
    requires { 8 < length text.now }
    ensures { OnTrue result ((k : ℕ) → k < 8 → spec.stand_at first second text.now k ≡ false) }
{
    let mut none = true;
    for place in 0..8 {
        none = none & ((first != text[place]) | (second != text[place + 1]));
    }
    none
}

/// Whether a text begins with another.
pub(crate) fn begins_with(text: &[u8], needle: &[u8]) -> bool
    ensures { result ≡ spec.begins_with needle.now text.now }
{
    if text.len() < needle.len() {
        return false;
    }
    for place in 0..needle.len() {
        if text[place] != needle[place] {
            return false;
        }
    }
    true
}

/// Whether a text ends with another.
pub(crate) fn ends_with(text: &[u8], needle: &[u8]) -> bool
    ensures { result ≡ spec.ends_with needle.now text.now }
{
    if text.len() < needle.len() {
        return false;
    }
    begins_with(&text[text.len() - needle.len()..], needle)
}
