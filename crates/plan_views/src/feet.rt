//! What stands at the foot of a page: what is proved, what isn't, and the constants behind the costs.

use planned_queries::View;
use std::alloc::{AllocError, Global};

const PROVED: &str =
    "Proved: costs and bounds are those of the written plan space, and no plan of it costs less than a least plan. Not proved: names, words and drawing.";

const CONSTANTS: &str =
    "Costs: a page that is read 10, a row that is handed on 1; a sort 20 a page and 1 a row; a page has 4096 bytes, and 64 pages are kept. Sums stop at 10^18.";

const SWEPT: &str =
    "Each line is a least plan, whose certificate passes the check; between two lines nothing is claimed.";

const INDEXED: &str =
    "An index also changes estimates: what is the index's own is the difference of two plans under the same statistics, and the rest is the estimate's.";

/// The lines of a view's foot.
pub fn foot(alloc: Global, view: View<'_>) -> Result<Vec<String>, AllocError> {
    let own = match view {
        View::Sweep { .. } => Some(SWEPT),
        View::Indexes { .. } => Some(INDEXED),
        View::Tree { .. } | View::Why { .. } | View::Search { .. } | View::Page => None,
    };
    let mut lines = Vec::new(alloc);
    if let Some(line) = own {
        lines.push(String::from_str(alloc, line)?)?;
    }
    lines.push(String::from_str(alloc, PROVED)?)?;
    lines.push(String::from_str(alloc, CONSTANTS)?)?;
    Ok(lines)
}
