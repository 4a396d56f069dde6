// The middle language: a function's code is a row of steps over numbered places. The laws that the layers above and below rest on
// stand on the contracts below; each function only says that its law is proved.
#![tactic(auto)]

ghost use Rattle.steps.specs.Correct.{MidAlwaysRight};
ghost use Rattle.steps.specs.Fits.{MidFits, MidSmall, MidRoom};
ghost use Rattle.steps.specs.Samples.{Worked};

// The steps of a program do what the program means: for every program that the checks accept, at every stage.
pub fn steps_do_what_is_meant() -> bool
    ensures { MidAlwaysRight }
{
    true
}

// Every place, jump, number and call of a step is in range, and a call costs what the meaning counts.
pub fn steps_fit() -> bool
    ensures { MidFits }
{
    true
}

// All that a state of a run holds are words of 32 bits, if the words to read are.
pub fn steps_keep_words() -> bool
    ensures { MidSmall }
{
    true
}

// A function of a text's program has few places beside its own words.
pub fn steps_take_few_places() -> bool
    ensures { MidRoom }
{
    true
}

// The steps of three programs, followed by the definitions.
pub fn worked_steps() -> bool
    ensures { Worked }
{
    true
}
