//! The checks, by their names.

use crate::checking_runs::refused_checking_run_keeps_what_was_made;
use crate::faults::{
    faulty_file_changes_nothing, file_of_no_table_is_not_fetched, sinks_fail_at_each_byte,
};
use crate::memory::refused_allocation_leaves_whole_statements;
use crate::totals::{
    inner_blocks_count_as_often_as_they_are_evaluated, matches_open_the_rows_of_their_keys,
};
use crate::work::{
    joined_rows_are_counted, work_is_that_of_the_plan_that_explain_prints,
    work_stays_where_no_rows_are_printed,
};
use std::alloc::Global;

/// Runs each check, and tells by its name whether it holds.
pub(crate) fn all(alloc: Global) -> [(&'static str, bool); 10] {
    [
        (
            "refused_checking_run_keeps_what_was_made",
            refused_checking_run_keeps_what_was_made(alloc),
        ),
        (
            "faulty_file_changes_nothing",
            faulty_file_changes_nothing(alloc),
        ),
        (
            "file_of_no_table_is_not_fetched",
            file_of_no_table_is_not_fetched(alloc),
        ),
        ("sinks_fail_at_each_byte", sinks_fail_at_each_byte(alloc)),
        (
            "refused_allocation_leaves_whole_statements",
            refused_allocation_leaves_whole_statements(alloc),
        ),
        (
            "inner_blocks_count_as_often_as_they_are_evaluated",
            inner_blocks_count_as_often_as_they_are_evaluated(alloc),
        ),
        (
            "matches_open_the_rows_of_their_keys",
            matches_open_the_rows_of_their_keys(alloc),
        ),
        ("joined_rows_are_counted", joined_rows_are_counted(alloc)),
        (
            "work_is_that_of_the_plan_that_explain_prints",
            work_is_that_of_the_plan_that_explain_prints(alloc),
        ),
        (
            "work_stays_where_no_rows_are_printed",
            work_stays_where_no_rows_are_printed(alloc),
        ),
    ]
}
