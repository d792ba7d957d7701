//! The laws of save and read, each the promise of a function, so that the check asks for its proof.
ghost use Rattle.sheet.specs.Saved.{SavedReadsBack, ReadSavesBack, SaveSaysTheSame, SaveSettles};

/// A saved sheet is read as the same offer, whatever follows it.
pub fn saved_reads_back()
    ensures { SavedReadsBack }
{}

/// A sheet that is read keeps the limits, and its save is read as the same offer.
pub fn read_saves_back()
    ensures { ReadSavesBack }
{}

/// A candidate's own text and its save say the same.
pub fn save_says_the_same()
    ensures { SaveSaysTheSame }
{}

/// A save, read and saved again, is the same bytes.
pub fn save_settles()
    ensures { SaveSettles }
{}
