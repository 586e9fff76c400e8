// The kind table: a row for each of the eight kinds of gates. A kind's number is its place in the table.
ghost use Rattle.std.specs.Prelude.{◌<◌};
ghost use Rattle.rules.specs.Kinds.{kind_row};
ghost use Rattle.gates.specs.KindRows.{IsRow, IsTable};

/// A row of the kind table.
#[derive(Clone, Copy, Debug, PartialEq, Eq)]
pub struct Kind {
    /// As the listing writes it.
    pub name: &'static str,
    /// 0: the output stands for its variable; 1: for the opposite.
    pub output_sign: u8,
    /// 0: all inputs are positive; 1: all are negative; 2: there are both.
    pub input_signs: u8,
    /// The least number of inputs.
    pub least: usize,
    /// The greatest number of inputs.
    pub greatest: usize,
}

// The numbers of the kinds.
pub const AND: u8 = 0;

pub const NOR: u8 = 1;

pub const CG: u8 = 2;

pub const OR: u8 = 3;

pub const NAND: u8 = 4;

pub const DG: u8 = 5;

pub const XOR: u8 = 6;

pub const XNOR: u8 = 7;

pub const KINDS: [Kind; 8] = [
    Kind {
        name: "and",
        output_sign: 0,
        input_signs: 0,
        least: 2,
        greatest: 63,
    },
    Kind {
        name: "nor",
        output_sign: 0,
        input_signs: 1,
        least: 2,
        greatest: 63,
    },
    Kind {
        name: "cg",
        output_sign: 0,
        input_signs: 2,
        least: 2,
        greatest: 63,
    },
    Kind {
        name: "or",
        output_sign: 1,
        input_signs: 0,
        least: 2,
        greatest: 63,
    },
    Kind {
        name: "nand",
        output_sign: 1,
        input_signs: 1,
        least: 2,
        greatest: 63,
    },
    Kind {
        name: "dg",
        output_sign: 1,
        input_signs: 2,
        least: 2,
        greatest: 63,
    },
    Kind {
        name: "xor",
        output_sign: 0,
        input_signs: 0,
        least: 2,
        greatest: 4,
    },
    Kind {
        name: "xnor",
        output_sign: 1,
        input_signs: 0,
        least: 2,
        greatest: 4,
    },
];

/// The row of a kind in a table that says what the definition's does.
#[tactic(auto, using(crate::proofs::KindTable::table_length, crate::proofs::KindTable::row_is))]
fn row_of(table: &[Kind], kind: u8) -> Kind
    requires number { kind < 8 }
    requires table { IsTable table.now }
    ensures { IsRow result (kind_row kind) }
{
    table[usize::from(kind)]
}

/// The row of a kind.
#[tactic(auto, unfolding(rules::specs::Kinds::kinds))]
pub fn kind_row(kind: u8) -> Kind
    requires { kind < 8 }
    ensures { IsRow result (kind_row kind) }
{
    row_of(&KINDS, kind)
}
