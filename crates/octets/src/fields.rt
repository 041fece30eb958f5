// The fields of a line, each a part of the line itself: rule 7.2.
ghost use Rattle.std.specs.Prelude.{◌≡◌};
ghost use Rattle.octets.specs.Split.{field_of, field_count};

/// The byte between two fields: rule 7.2.
pub const COMMA: u8 = b',';

/// Field k of a line, counted from 0; an empty part where the line has no such field, as its definition has it: no number and no word is
/// empty, so that an Option would only be asked for at each field.
pub fn field(line: &[u8], k: usize) -> &[u8]
    ensures { result.now ≡ field_of line.now k }
{
    line.split(|b| *b == COMMA).nth(k).unwrap_or(&[])
}

/// How many fields a line has.
#[tactic(auto, using(crate::proofs::SplitLaws::fields_counted))]
pub fn count_fields(line: &[u8]) -> usize
    ensures { result ≡ field_count line.now }
{
    line.iter().filter(|b| **b == COMMA).count() + 1
}
