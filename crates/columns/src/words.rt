//! Words in which each row of a scan has a bit.

ghost use Rattle.std.specs.Prelude.{◌≡◌, ◌≤◌, ◌-◌, ◌^◌};

/// The word in which each of the first rows, as many as `rows`, has its bit (own).
pub fn all_rows(rows: usize) -> u64
    requires { rows ≤ 64 }
    ensures { result ≡ 2 ^ rows - 1 }
{
    if rows == 64 {
        u64::MAX
    } else {
        (1 << rows) - 1
    }
}
