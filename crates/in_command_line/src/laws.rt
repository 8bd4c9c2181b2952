//! Laws on the requests of command lines. No function here does anything.

ghost use Rattle.in_command_line.specs.Laws.{FaultlessWordsAsk, FilesAreAsked, FlagsAreAsked, HelpIsAsked, LargeIsAsked, NumbersOutOfRangeAreWrong, OtherWordsAreWrong, RunAsksForEachClass, RunAsksForTheGiven, RunAsksForTheOthers, RunAsksForTheUsual, SubcommandsAsk, VersionIsAsked, WordsAskForOneAction};

/// Words make at most one request.
pub fn words_ask_for_one_action()
    ensures { WordsAskForOneAction }
{}

/// Words in which `clap` finds no error make a request, so none of them is refused as wrong.
pub fn faultless_words_ask()
    ensures { FaultlessWordsAsk }
{}

/// The request of each subcommand: `check` and `derive` by their names; `run` with the numbers of its options, or the defaults, and its flags;
/// and the file and the limits of the text of each. A class of cells without an option has as many as `--cells` says.
pub fn subcommands_ask()
    ensures named { SubcommandsAsk }
    ensures usual { RunAsksForTheUsual }
    ensures given { RunAsksForTheGiven }
    ensures classes { RunAsksForEachClass }
    ensures others { RunAsksForTheOthers }
    ensures flags { FlagsAreAsked }
    ensures files { FilesAreAsked }
    ensures large { LargeIsAsked }
{}

/// The words that are refused: help and the version if they are requested, and as wrong no subcommand, a word too many, an option or a flag given twice
/// and a number that is out of range.
pub fn words_are_refused()
    ensures help { HelpIsAsked }
    ensures version { VersionIsAsked }
    ensures wrong { OtherWordsAreWrong }
    ensures range { NumbersOutOfRangeAreWrong }
{}
