// The parts of a line: its letter, its fields with a tab before each, its LF.
ghost use Rattle.std.specs.Prelude.{◌≡◌, map};
ghost use Rattle.texts.specs.Decimal.{decimal, signed};
ghost use Rattle.texts.specs.Laying.{laid, lay};
ghost use Rattle.listing.specs.Fields.{field, fields, lined};

use texts::pieces::Laying;

/// Lays a field that is a number.
#[tactic(auto, using(texts::proofs::LaySteps::laid_behind))]
pub fn put_number_field(laying: &mut Laying, number: usize)
    ensures { laid laying.new ≡ lay (laid laying.old) (field (decimal number)) }
{
    laying.put(b"\t");
    laying.put_number(number);
}

/// Lays a field that is a literal with its sign.
#[tactic(auto, using(texts::proofs::LaySteps::laid_behind))]
pub fn put_signed_field(laying: &mut Laying, literal: usize)
    ensures { laid laying.new ≡ lay (laid laying.old) (field (signed literal)) }
{
    laying.put(b"\t");
    laying.put_signed(literal);
}

/// Lays the fields of a line that are all numbers.
#[tactic(auto, using(crate::proofs::Walks::number_on, crate::proofs::Walks::number_ends))]
fn put_number_fields(laying: &mut Laying, numbers: &[usize])
    ensures { laid laying.new ≡ lay (laid laying.old) (fields (map decimal numbers.now)) }
{
    for &number in numbers {
        put_number_field(laying, number);
    }
}

/// Lays a line of numbers.
#[tactic(auto, using(texts::proofs::LaySteps::laid_behind))]
pub fn put_numbers(laying: &mut Laying, letter: &[u8], numbers: &[usize])
    ensures { laid laying.new ≡ lay (laid laying.old) (lined letter.now (map decimal numbers.now)) }
{
    laying.put(letter);
    put_number_fields(laying, numbers);
    laying.put(b"\n");
}
