//! The laws: what holds of each crash.

ghost use Rattle.rm_crash.specs.Laws.{AcknowledgedStay, CrashImagesAreFound, FoundIsOfLog, FoundIsRead, FreshIsFound, RestartImagesAreFound, RestartedLogsOpen, RestartsRecover, ScriptsMakeNoCheckpoint};

/// A volume that was just made is what an opening takes, with an empty log, with which the machine opens.
#[tactic(auto, using(crate::proofs::Images::fresh_is_found))]
pub fn a_new_volume_is_found()
    ensures { FreshIsFound }
{}

/// What is found is sound, and its master names no checkpoint.
pub fn what_is_found_is_of_its_log()
    ensures { FoundIsOfLog }
{}

/// An image is read as what is found in it.
pub fn what_is_found_is_read()
    ensures { FoundIsRead }
{}

/// The machine opens with the log that restart leaves.
pub fn a_restarted_log_opens()
    ensures { RestartedLogsOpen }
{}

/// Each image that a restart may leave, also one that is cut off, is sound, with the rows that the opening found.
pub fn restart_images_are_found()
    ensures { RestartImagesAreFound }
{}

/// Each image that a run may leave is sound, with the rows of the first transactions in the order of their commits, as
/// many as its log has commits.
pub fn crash_images_are_found()
    ensures { CrashImagesAreFound }
{}

/// Acknowledged transactions whose commits are durable are in each image.
pub fn acknowledged_transactions_stay()
    ensures { AcknowledgedStay }
{}

/// Restart of such an image leaves the rows of these transactions, each page with nothing else, and each entry right.
pub fn a_restart_recovers()
    ensures { RestartsRecover }
{}

/// The run of a script makes no checkpoint.
#[tactic(auto, using(crate::proofs::Scripts::scripts_make_no_checkpoint))]
pub fn scripts_make_no_checkpoint()
    ensures { ScriptsMakeNoCheckpoint }
{}
