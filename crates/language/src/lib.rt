// The language: trees, words of 32 bits, what a program means, what makes files a program. The laws of the meaning stand on the
// contracts below; each function only says that its law is proved.
#![tactic(auto)]

ghost use Rattle.language.specs.Laws.{NeverWrong, Further, OnlyGrows, WordsStay};
ghost use Rattle.language.specs.Samples.{Worked};

// No program that the checks accept comes to where nothing is meant.
pub fn never_wrong() -> bool
    ensures { NeverWrong }
{
    true
}

// Following a run further changes nothing that was found, and what was put out stays.
pub fn further() -> bool
    ensures { Further }
{
    true
}

// What is put out and the list of calls only grow.
pub fn only_grows() -> bool
    ensures { OnlyGrows }
{
    true
}

// Where the words to read are below 2^32, every word of every state is, and so is what main gives.
pub fn words_stay() -> bool
    ensures { WordsStay }
{
    true
}

// The factorial, a sum over an array in another file, a table of functions: they mean what they should.
pub fn worked_programs() -> bool
    ensures { Worked }
{
    true
}
