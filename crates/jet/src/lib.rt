// The constant table of jets, and the choice of a hash add by the width of its word.
#![tactic(auto)]

ghost use Rattle.std.specs.Prelude.{◌≡◌, ◌<◌};
ghost use Rattle.jet.specs.Jets.{jet_of, add_of, Adds};

// The number of arguments in the source, and the bit widths of the input and the output type.
#[derive(Clone, Copy)]
pub struct Jet {
    pub arguments: u16,
    pub input: u16,
    pub output: u16,
}

// A jet's number is its place here. It is no enum: an operand of a node has it, and a book's field.
const JETS: [Jet; 11] = [
    // 0 verify
    Jet {
        arguments: 1,
        input: 1,
        output: 0,
    },
    // 1 eq_8
    Jet {
        arguments: 2,
        input: 16,
        output: 1,
    },
    // 2 add_8
    Jet {
        arguments: 2,
        input: 16,
        output: 9,
    },
    // 3 sha_256_ctx_8_init
    Jet {
        arguments: 0,
        input: 0,
        output: 830,
    },
    // 4 sha_256_ctx_8_add_1
    Jet {
        arguments: 2,
        input: 838,
        output: 830,
    },
    // 5 sha_256_ctx_8_add_2
    Jet {
        arguments: 2,
        input: 846,
        output: 830,
    },
    // 6 sha_256_ctx_8_add_4
    Jet {
        arguments: 2,
        input: 862,
        output: 830,
    },
    // 7 sha_256_ctx_8_add_8
    Jet {
        arguments: 2,
        input: 894,
        output: 830,
    },
    // 8 sha_256_ctx_8_add_16
    Jet {
        arguments: 2,
        input: 958,
        output: 830,
    },
    // 9 sha_256_ctx_8_add_32
    Jet {
        arguments: 2,
        input: 1086,
        output: 830,
    },
    // 10 sha_256_ctx_8_finalize
    Jet {
        arguments: 1,
        input: 830,
        output: 256,
    },
];

pub fn jet_at(j: usize) -> Jet
    requires { j < 11 }
    ensures { result ≡ jet_of j }
{
    JETS[j]
}

// The jet that adds a word of so many bits to a hash. Widths are powers of two from 8 on and the jets stand in their order, so the
// leading zeros tell its number.
#[tactic(auto, using(crate::proofs::Adders::adds_zeros))]
pub fn add_jet(bits: u16) -> u16
    requires { 0 < add_of bits }
    ensures { Adds bits result }
{
    16 - (u16::leading_zeros(bits) as u16)
}
