//! What some words give, and that words give one thing at most, as contracts of functions that do nothing.

ghost use Rattle.pv_words.specs.Laws.{EndsFlags, EndsOptions, IsOne, RefusesDash, RefusesEnd};
ghost use Rattle.pv_words.specs.Laws.{RefusesFlagAsValue, RefusesFlagTwice, RefusesFlagValue, RefusesTwice};
ghost use Rattle.pv_words.specs.Laws.{RefusesUnknown, TakesFlag, TakesValueApart, TakesValueJoined};

/// `--rounds 3 A B` and `A --rounds=3 B` give the same.
pub fn law_values()
    ensures apart { TakesValueApart }
    ensures joined { TakesValueJoined }
{}

/// In `-- -a --` all words after the first are arguments.
pub fn law_end()
    ensures { EndsOptions }
{}

/// No value begins with `-`: `--rounds -1 A B` and `--rounds -- A B` give nothing.
pub fn law_dashes()
    ensures number { RefusesDash }
    ensures end { RefusesEnd }
{}

/// No option stands twice, and none that the command doesn't have.
pub fn law_options()
    ensures twice { RefusesTwice }
    ensures unknown { RefusesUnknown }
{}

/// `--counted A B` and `A --counted B` give the flag, and in `-- --counted B` it is an argument.
pub fn law_flags()
    ensures given { TakesFlag }
    ensures ended { EndsFlags }
{}

/// A flag has no value, is given once at most, and is no value of an option: `--counted=1 A B`, `--counted --counted A B` and
/// `--rounds --counted A B` give nothing.
pub fn law_no_flags()
    ensures value { RefusesFlagValue }
    ensures twice { RefusesFlagTwice }
    ensures as_value { RefusesFlagAsValue }
{}

/// Words give one thing at most.
pub fn law_one()
    ensures { IsOne }
{}
