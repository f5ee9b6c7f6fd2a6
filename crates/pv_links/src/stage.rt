//! The three classes of a chain.

ghost use Rattle.std.specs.Prelude.{◌≡◌};
ghost use Rattle.pv_links.specs.Stages.{ordinal_word, stage_word};

/// One of the three classes of a chain.
#[derive(Clone, Copy, Debug, PartialEq, Eq)]
pub enum Stage {
    First,
    Middle,
    Last,
}

/// `first`, `second` or `third`.
pub(crate) fn ordinal_word(stage: Stage) -> &'static [u8]
    ensures { result.now ≡ ordinal_word stage }
{
    match stage {
        Stage::First => b"first",
        Stage::Middle => b"second",
        Stage::Last => b"third",
    }
}

/// `first`, `middle` or `second`.
pub(crate) fn stage_word(stage: Stage) -> &'static [u8]
    ensures { result.now ≡ stage_word stage }
{
    match stage {
        Stage::First => b"first",
        Stage::Middle => b"middle",
        Stage::Last => b"second",
    }
}
