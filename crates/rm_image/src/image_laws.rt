//! What holds of all checkpoints and of all images.

ghost use Rattle.rm_types.specs.declared.formats.Format.{Format};
ghost use Rattle.rm_history.specs.Acts.{History};
ghost use Rattle.rm_image.specs.ImageLaws.{CheckpointsAreOne, RedoPointIsLeast, WholeImagesAreRedone, CheckpointsAreRecords, PagesPastTheCopyAreEmpty, PagesPastTheFileAreEmpty, LogImagesAreSound, RedoBeginsAtGates, SoundImagesAreOne, CopiesAreOfTheFile, FreshIsSound, FreshIsWhole};

/// What is asked of the history of a sound log.
pub trait HistoryRules {
    /// The history of a log that begins in the format keeps the rules.
    ghost rules: { Format → History → Type 0 };
}

/// Of a log in order the master names one checkpoint, or none.
pub fn a_master_names_one_checkpoint()
    ensures { CheckpointsAreOne }
{}

/// Unless the file is being restored, no block's redo offset is before the redo point; while it is, the
/// copy's start is not.
pub fn no_redo_offset_is_before_the_redo_point()
    ensures { RedoPointIsLeast }
{}

/// Of a sound image whose log is in order: the redo point and each redo offset is a gate, and no redo offset
/// is after the checkpoint's batch.
pub fn redo_begins_at_gates<R: HistoryRules>()
    ensures { RedoBeginsAtGates R.rules }
{}

/// An empty block stands for each page that a copy lacks.
pub fn pages_past_the_copy_are_empty()
    ensures { PagesPastTheCopyAreEmpty }
{}

/// No record of a sound log is on a page that the file lacks: it is empty.
pub fn pages_past_the_file_are_empty()
    ensures { PagesPastTheFileAreEmpty }
{}

/// From the redo point on redo makes of each block of a whole image what the log says; while the file is being
/// restored, of each copied block.
pub fn redo_completes_whole_images()
    ensures { WholeImagesAreRedone }
{}

/// Where each record is of a transaction, the master names no checkpoint.
pub fn no_checkpoint_without_its_record()
    ensures { CheckpointsAreRecords }
{}

/// An image whose master names no checkpoint and no copy is sound just where its master has these fields,
/// area Log has this log, and the log is sound.
pub fn an_image_of_a_log_alone_is_sound<R: HistoryRules>()
    ensures { LogImagesAreSound R.rules }
{}

/// An image is sound with one start, one master and one log, and the start is what the master says.
pub fn a_sound_image_has_one_reading<R: HistoryRules>()
    ensures { SoundImagesAreOne R.rules }
{}

/// The copy that a sound image names is of all pages of the file.
pub fn a_copy_is_of_the_whole_file<R: HistoryRules>()
    ensures { CopiesAreOfTheFile R.rules }
{}

/// A volume that was just made is sound by all rules that a history without records keeps.
pub fn a_new_volume_is_sound<R: HistoryRules>()
    ensures { FreshIsSound R.rules }
{}

/// A volume that was just made is whole.
pub fn a_new_volume_is_whole()
    ensures { FreshIsWhole }
{}
