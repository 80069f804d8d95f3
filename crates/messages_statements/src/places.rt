//! Where causes stand in the script.

use crate::create::name_at_fault;
use crate::index::name_of_index;
use crate::statistics::{offset_of_statistics, offset_of_table_statistics};
use diagnostics::Cause;
use lexer::LexFault;
use messages_queries::offset_of_fault;

/// The byte of the script that a cause is about. A missing token is told behind the one before it.
pub(crate) fn offset_of(cause: &Cause) -> usize {
    match cause {
        Cause::Lexical(fault) => lexical_offset(*fault),
        Cause::Unexpected(unexpected) => match unexpected.found {
            Some(_) => unexpected.offset,
            None => unexpected.behind,
        },
        Cause::TooDeep { offset } => *offset,
        Cause::Create {
            name,
            columns,
            fault,
        } => name_at_fault(name, columns, *fault).start,
        Cause::Index { list, fault } => name_of_index(*list, *fault).start,
        Cause::TableStatistics(cause) => offset_of_table_statistics(*cause),
        Cause::Statistics(cause) => offset_of_statistics(*cause),
        Cause::NoTable(name) | Cause::ManyRows(name) => name.start,
        Cause::NoFile { file, .. } => file.start,
        Cause::Record { load, .. } | Cause::Repeated { load, .. } => load.file.start,
        Cause::Query(cause) => offset_of_fault(cause.fault),
    }
}

fn lexical_offset(fault: LexFault) -> usize {
    match fault {
        LexFault::StrayCharacter { offset, .. }
        | LexFault::OpenString { offset }
        | LexFault::LongLiteral { offset, .. }
        | LexFault::LongName { offset, .. }
        | LexFault::Memory { offset } => offset,
    }
}
