//! What holds of all histories: functions without code, whose contracts are laws.

ghost use Rattle.rm_history.specs.Laws.{LogsAreOne, DamageIsOne, ActsDetermineRecords, SettledWhenNothingIsPending, EmptyIsLegal, PrefixesAreInOrder, LegalPrefixes, LegalIsInOrder, PendingIsChained, PendingIsOfOne, PagesHoldWhatIsPending, PagesHoldWhatIsCommitted, AllPendingIsOfEach, NoneOfFinished, LosersAreUnfinished};
ghost use Rattle.rm_history.specs.RoomLaws.{NeedsGoOn, FittingIsRoom};
ghost use Rattle.rm_history.specs.UndoLaws.{UndoesAreInOrder, NoUndoLacksRoom, RollbacksAreLegal, RestartsAreLegal, RestartsExist, PartialRollbacksAreLegal, RestartsCompensateAll, UndoBytesGoDown};
ghost use Rattle.rm_history.specs.LiteralLaws.{NetIsPending, RowsAreOfWinners, NeedIsTheMost};

/// An area has one log.
pub fn an_area_has_one_log()
    ensures { LogsAreOne }
{}

/// A damaged area has no log, and is damaged at one place alone.
pub fn a_damaged_area_has_no_log()
    ensures { DamageIsOne }
{}

/// No two records do the same with the same LSN: a history of acts has all that its records have.
pub fn an_act_determines_its_record()
    ensures { ActsDetermineRecords }
{}

/// What stands before the newest records of a history in order is in order.
pub fn a_prefix_of_a_history_in_order_is_in_order()
    ensures { PrefixesAreInOrder }
{}

/// What stands before the newest records of a legal history is legal.
pub fn a_prefix_of_a_legal_history_is_legal()
    ensures { LegalPrefixes }
{}

/// A legal history is in order.
pub fn a_legal_history_is_in_order()
    ensures { LegalIsInOrder }
{}

/// Each pending change of a transaction names the one below it.
pub fn pending_changes_are_a_chain()
    ensures { PendingIsChained }
{}

/// The pending changes of one row id are of one transaction.
pub fn pending_changes_of_a_row_id_are_of_one_transaction()
    ensures { PendingIsOfOne }
{}

/// A page holds what its pending changes left on the committed row.
pub fn a_page_holds_what_is_pending()
    ensures { PagesHoldWhatIsPending }
{}

/// Where no change is pending a page holds the committed row.
pub fn a_page_holds_what_is_committed()
    ensures { PagesHoldWhatIsCommitted }
{}

/// All that is pending is what is pending of each transaction, with LSNs that fall.
pub fn all_pending_is_of_each_transaction()
    ensures { AllPendingIsOfEach }
{}

/// A finished transaction has nothing pending.
pub fn a_finished_transaction_has_nothing_pending()
    ensures { NoneOfFinished }
{}

/// The losers are the unfinished transactions with a record, with ids that rise.
pub fn losers_are_unfinished()
    ensures { LosersAreUnfinished }
{}

/// The undo of a transaction's last pending change is in order: its page has the room. Of the inventory this says nothing.
pub fn an_undo_is_in_order()
    ensures { UndoesAreInOrder }
{}

/// The undo of a transaction's last pending change, with the page's entry settled before it, is legal: its page has the room.
pub fn no_undo_lacks_room()
    ensures { NoUndoLacksRoom }
{}

/// A rollback is legal, and leaves the committed rows.
pub fn a_rollback_is_legal()
    ensures { RollbacksAreLegal }
{}

/// A partial rollback is legal, and leaves the committed rows and the rest of what is pending.
pub fn a_partial_rollback_is_legal()
    ensures { PartialRollbacksAreLegal }
{}

/// Restart's undo is legal; after it nothing is pending, each page holds the committed rows, and each entry is right.
pub fn restart_is_legal()
    ensures { RestartsAreLegal }
{}

/// Restart's undo appends a compensation for each pending change.
pub fn restart_compensates_each_pending_change()
    ensures { RestartsCompensateAll }
{}

/// Restart's undo of a history can be made.
pub fn every_history_can_be_restarted()
    ensures { RestartsExist }
{}

/// The bytes of restart's undo go down by those of each record that it appends.
pub fn undo_bytes_go_down()
    ensures { UndoBytesGoDown }
{}

/// The net changes of an unfinished transaction are those that are pending.
pub fn net_changes_are_pending()
    ensures { NetIsPending }
{}

/// The committed rows are those that the winners' net changes leave.
pub fn rows_are_those_of_the_winners()
    ensures { RowsAreOfWinners }
{}

/// A need is the most that any of the last changes gave up.
pub fn a_need_is_the_most_of_all_suffixes()
    ensures { NeedIsTheMost }
{}

/// A log without records is legal.
pub fn a_log_without_records_is_legal()
    ensures { EmptyIsLegal }
{}

/// Where nothing is pending each page holds the committed rows, and nothing else.
pub fn nothing_pending_means_settled()
    ensures { SettledWhenNothingIsPending }
{}

/// A need goes on by what a change gives up and takes, and back after its undo; a finished transaction needs nothing.
pub fn needs_go_on()
    ensures { NeedsGoOn }
{}

/// A row that fits is one that leaves each page room for all undo, and a delete always does.
pub fn what_fits_leaves_room()
    ensures { FittingIsRoom }
{}
