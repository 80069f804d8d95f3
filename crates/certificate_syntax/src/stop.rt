//! Where reading of a certificate's text stops, and why.

ghost use Rattle.std.specs.Prelude.{◌≡◌, length};
ghost use Rattle.certificate_syntax.specs.declared.stop.TextStop.TheVariants as stops;

use crate::fault::Expected;
use std::alloc::{AllocError, AllocFailed};

/// Why reading stops.
#[derive(Clone, Copy)]
pub(crate) enum TextStop {
    /// So many bytes are left, and they don't begin with what is looked for.
    Form { left: usize, expected: Expected },
    /// Want of memory.
    Memory,
}

/// A stop before what is left of a text.
pub(crate) fn stop_before(text: &[u8], expected: Expected) -> TextStop
    ensures { result ≡ stops.Form (length text.now) expected }
{
    TextStop::Form {
        left: text.len(),
        expected,
    }
}

impl From<AllocError> for TextStop {
    ghost from_gives = { λ _ stop. stop ≡ stops.Memory };

    fn from(_error: AllocError) -> TextStop {
        TextStop::Memory
    }
}

impl<T: Drop> From<AllocFailed<T>> for TextStop {
    ghost from_gives = { λ _ stop. stop ≡ stops.Memory };

    fn from(_error: AllocFailed<T>) -> TextStop {
        TextStop::Memory
    }
}
