ghost use Rattle.std.specs.Prelude.{◌≡◌};
ghost use Rattle.query_reader.specs.Values.{hits_of, option_of, weight_of};

use query_tree::{Mark, MarkKind};
use uni_base::{cut_at, read_between};

/// The options of lists.
#[derive(Clone, Copy, Debug, PartialEq, Eq)]
pub(crate) enum OptionName {
    Limit,
    Mark(MarkKind),
}

/// The option that an atom names.
pub(crate) fn read_option(atom: &[u8]) -> Option<OptionName>
    ensures { result ≡ option_of atom.now }
{
    if atom == ":limit".as_bytes() {
        Some(OptionName::Limit)
    } else if atom == ":optional-hits".as_bytes() {
        Some(OptionName::Mark(MarkKind::Hits))
    } else if atom == ":optional-weight".as_bytes() {
        Some(OptionName::Mark(MarkKind::Weight))
    } else {
        None
    }
}

/// The mark of a fraction from above 0 to 1, with a denominator of at most 1000.
pub(crate) fn read_weight(text: &[u8]) -> Option<Mark>
    ensures { result ≡ weight_of text.now }
{
    let (numerator, denominator) = cut_at(text, b'/')?;
    let denominator = read_between(denominator, 1, 1000)?;
    let numerator = read_between(numerator, 1, denominator)?;
    Some(Mark::Weight(numerator as u32, denominator as u32))
}

/// The mark of a number of hits that may lack an operand.
pub(crate) fn read_hits(text: &[u8]) -> Option<Mark>
    ensures { result ≡ hits_of text.now }
{
    let count = read_between(text, 0, 1_000_000)?;
    Some(Mark::Hits(count as u32))
}
