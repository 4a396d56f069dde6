// Texts and programs: from bytes to pieces to trees, the model parser, and the bounds that only the grammar gives. The theorems stand on
// the contracts below; each function only says that its theorem is proved.
#![tactic(auto)]

ghost use Rattle.grammar.specs.Laws.{OneProgram, NeverWrong, Further};
ghost use Rattle.grammar.specs.Reading.{ReadingSound, ReadingComplete, ReadingNone};
ghost use Rattle.grammar.specs.Equations.{Equations};
ghost use Rattle.grammar.specs.Bounds.{DeepBounded, WordsBounded};
ghost use Rattle.grammar.specs.Budget.{DeepAttained, FramesFit, PlacesFit, ImageFits, JumpsReach};
ghost use Rattle.grammar.specs.Samples.{Cut, WorkedTexts};

// A text is at most one program.
pub fn one_program() -> bool
    ensures { OneProgram }
{
    true
}

// No text's program comes to where nothing is meant.
pub fn never_wrong() -> bool
    ensures { NeverWrong }
{
    true
}

// Following the run of a text's program further changes nothing that was found, and what was put out stays.
pub fn further() -> bool
    ensures { Further }
{
    true
}

// What is read is what the text says.
pub fn reading_sound() -> bool
    ensures { ReadingSound }
{
    true
}

// What a text says is read.
pub fn reading_complete() -> bool
    ensures { ReadingComplete }
{
    true
}

// Where nothing is read, the text is no program.
pub fn reading_none() -> bool
    ensures { ReadingNone }
{
    true
}

// The model parser is its own step: what parser code is proved against.
pub fn parser_equations() -> bool
    ensures { Equations }
{
    true
}

// No function of a text's program has more than 593 values that wait at once.
pub fn deep_bounded() -> bool
    ensures { DeepBounded }
{
    true
}

// Some function of some text's program has as many.
pub fn deep_attained() -> bool
    ensures { DeepAttained }
{
    true
}

// Code whose costs are fair for m takes at most m words for each byte of the text.
pub fn words_bounded() -> bool
    ensures { WordsBounded }
{
    true
}

// A frame with a place for every value that waits is no larger than what the meaning counts for the call.
pub fn frames_fit() -> bool
    ensures { FramesFit }
{
    true
}

// The places of a frame are within reach of an offset of 12 bits.
pub fn places_fit() -> bool
    ensures { PlacesFit }
{
    true
}

// Code that 7 words a byte pay for fits the image of its text.
pub fn image_fits() -> bool
    ensures { ImageFits }
{
    true
}

// Such code is short enough for a jump to reach any word of it.
pub fn jumps_reach() -> bool
    ensures { JumpsReach }
{
    true
}

// Some texts are cut into the pieces that they should be.
pub fn cut_samples() -> bool
    ensures { Cut }
{
    true
}

// The factorial, the sum in another file and the table of functions are read from their texts.
pub fn worked_texts() -> bool
    ensures { WorkedTexts }
{
    true
}
