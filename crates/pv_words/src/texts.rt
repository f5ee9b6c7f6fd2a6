//! Which texts are values of options, and which are names of files.

ghost use Rattle.std.specs.Prelude.{◌↔◌, IsTrue, IsUtf8, map, option_map};
ghost use Rattle.pv_words.specs.Words.{IsFileName, IsValue};
ghost use Rattle.pv_words.specs.Answers.{texts};
ghost use Rattle.pv_words.specs.Matches.{AreFileNames, AreUtf8, AreValues};

// A text is UTF-8, as its type says.
fn law_text(text: &str)
    ensures { IsUtf8 text.now }
{}

/// Each word is UTF-8.
pub(crate) fn law_texts(words: &[&str])
    ensures { AreUtf8 (texts words.now) }
{
    for word in words {
        law_text(*word);
    }
}

// Whether a text may be the value of an option.
fn is_value(text: &str) -> bool
    ensures { IsTrue result ↔ IsValue text.now }
{
    match text.as_bytes() {
        [] => false,
        [first, ..] => *first != b'-',
    }
}

// Whether a text is the name of a file.
fn is_file_name(text: &str) -> bool
    ensures { IsTrue result ↔ IsFileName text.now }
{
    !text.is_empty() && text != "-"
}

/// Whether each option that has a value may have that value.
pub(crate) fn are_values(options: &[Option<&str>]) -> bool
    ensures { IsTrue result ↔ AreValues (map (option_map (λ s. s.now)) options.now) }
{
    for option in options {
        if let Some(value) = option
            && !is_value(*value)
        {
            return false;
        }
    }
    true
}

/// Whether each text is the name of a file.
pub(crate) fn are_file_names(arguments: &[&str]) -> bool
    ensures { IsTrue result ↔ AreFileNames (texts arguments.now) }
{
    for argument in arguments {
        if !is_file_name(*argument) {
            return false;
        }
    }
    true
}
