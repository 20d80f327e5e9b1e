//! Laws of worksheet text. Each is the contract of a function that does nothing.
#![tactic(auto)]

ghost use Rattle.written_model.specs.ReadBack.{SoundIsRead, ReadIsSpellable, LaidOutReadsBack};
ghost use Rattle.sheet_laws.specs.ReadAgain.{ReadsAsOne, LaidOutReadsOnlyAs};

/// Each text without a fault of 40 to 49 reads as a worksheet, and as one only.
pub fn sound_text_is_read()
    ensures read { SoundIsRead }
    ensures one { ReadsAsOne }
{}

/// What a text reads as can be spelled: its names, places, comments and `$d` statements are such that the grammar has a text
/// for them.
pub fn read_is_spellable()
    ensures { ReadIsSpellable }
{}

/// The layout of each worksheet that can be spelled, with no proof or one without an LF, has no fault of 40 to 49 and reads
/// as that worksheet, but for the numbers of its lines. Where it has at most 2^24 bytes it has no fault at all, and whatever
/// it reads as is that worksheet but for the numbers.
pub fn laid_out_reads_back()
    ensures back { LaidOutReadsBack }
    ensures only { LaidOutReadsOnlyAs }
{}
