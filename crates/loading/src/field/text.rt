//! Texts as fields write them.

ghost use Rattle.std.specs.Prelude.{◌≡◌, ◌==◌, Ok, Err, IfOk, IfErr, IfSome};
ghost use Rattle.std.specs.List.{list_all};
ghost use Rattle.std.specs.Option.{option_copied};
ghost use Rattle.definitions.specs.Characters.{space, is_printable as is_printable_code};
ghost use Rattle.definitions.specs.Value as spec;
ghost use Rattle.definitions.specs.Loading.{FieldLoads};
ghost use Rattle.sqlvalue.specs.RefusalMeaning.{field_error_of};
ghost use Rattle.columns.specs.Cells.{FitsIn, padded, text_or_null};
ghost use Rattle.loading.specs.Fields.{Stores, StoresNone};

use super::is_null;
use sqlvalue::FieldFault;

/// The characters of the text that a field is stored as in a column of texts of a length, if it is
/// not null, the blanks at its end apart.
pub(crate) fn text_cell(field: &[u8], length: usize) -> Result<Option<&str>, FieldFault>
    ensures fits { IfOk result (λ text. IfSome text (λ t. FitsIn (spec.Char length) t.now)) }
    ensures ok { IfOk result (λ text. FieldLoads (spec.Char length) field.now
        (Ok (text_or_null (spec.Char length) (option_copied text)))) }
    ensures err { IfErr result (λ f. FieldLoads (spec.Char length) field.now (Err (field_error_of f))) }
{
    if is_null(field) {
        return Ok(None);
    }
    match stored_text(field, length) {
        Ok(text) => Ok(Some(text)),
        Err(fault) => Err(fault),
    }
}

/// The characters that a field is stored as in a column of texts of a length: it is cut only where
/// the rest is blank, and spaces are to stand for what is missing (ISO/IEC 9075:1992, 9.2).
fn stored_text(field: &[u8], length: usize) -> Result<&str, FieldFault>
    ensures fits { IfOk result (λ t. FitsIn (spec.Char length) t.now) }
    ensures ok { IfOk result (λ t. Stores (spec.Char length) field.now (spec.Text (padded length t.now))) }
    ensures err { IfErr result (λ f. StoresNone (spec.Char length) field.now (field_error_of f)) }
{
    if !is_text(field) {
        return Err(FieldFault::Unprintable);
    }
    let (kept, rest) = field.split_at(field.len().min(length));
    if !is_blank(rest) {
        return Err(FieldFault::TooLong);
    }
    match str::from_utf8(kept) {
        Ok(text) => Ok(text),
        Err(_) => Err(FieldFault::Unprintable),
    }
}

fn is_text(field: &[u8]) -> bool
    ensures { result ≡ list_all is_printable_code field.now }
{
    field.iter().all(|c| is_printable(*c))
}

fn is_printable(c: u8) -> bool
    ensures { result ≡ is_printable_code c }
{
    b' ' <= c && c <= b'~'
}

fn is_blank(text: &[u8]) -> bool
    ensures { result ≡ list_all (λ c. c == space) text.now }
{
    text.iter().all(|c| *c == b' ')
}
