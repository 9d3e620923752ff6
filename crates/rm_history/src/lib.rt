//! What a log means: which batches stand in area Log, what they say of pages and rows, and which
//! logs are legal (docs/DEFINITIONS.md).
//!
//! The crate has no code. A history is the list of a log's records with their LSNs, the newest
//! first, and each definition is a recursion on it. The functions are laws: each ensures something
//! of the definitions alone.
#![tactic(auto)]

mod laws;

pub use laws::{
    a_damaged_area_has_no_log, a_finished_transaction_has_nothing_pending,
    a_legal_history_is_in_order, a_log_without_records_is_legal,
    a_need_is_the_most_of_all_suffixes, a_page_holds_what_is_committed,
    a_page_holds_what_is_pending, a_partial_rollback_is_legal,
    a_prefix_of_a_history_in_order_is_in_order, a_prefix_of_a_legal_history_is_legal,
    a_rollback_is_legal, all_pending_is_of_each_transaction, an_act_determines_its_record,
    an_area_has_one_log, an_undo_is_in_order, every_history_can_be_restarted,
    losers_are_unfinished, needs_go_on, net_changes_are_pending, no_undo_lacks_room,
    nothing_pending_means_settled, pending_changes_are_a_chain,
    pending_changes_of_a_row_id_are_of_one_transaction, restart_compensates_each_pending_change,
    restart_is_legal, rows_are_those_of_the_winners, undo_bytes_go_down, what_fits_leaves_room,
};

/// The bytes of a batch before its records: the gate byte and the length.
pub const BATCH_HEADER: u64 = 5;

/// The most bytes of records in a batch.
pub const MAX_BATCH: u64 = 2_097_152;
