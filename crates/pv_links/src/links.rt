//! Sections that belong together.

ghost use Rattle.std.specs.Prelude.{◌≡◌, find};
ghost use Rattle.std.specs.Option.{option_copied};
ghost use Rattle.pv_links.specs.Findings.{is_like};

use pv_cert::Section;

/// The first of the others that has the name and the descriptor of a section.
pub(crate) fn like_in<'c>(section: &Section, others: &'c [Section]) -> Option<&'c Section>
    ensures { option_copied result ≡ find (is_like section.now) others.now }
{
    others.iter().find(|other| other.name == section.name && other.desc == section.desc)
}
