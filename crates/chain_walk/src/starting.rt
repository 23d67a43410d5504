//! A net to start from: positive or negative Davio expansions in a random order of the inputs, f being
//! g, or g without the input's complement, XOR the input AND another function. Equal functions share their gates.

use crate::choices::Choices;
use crate::operator::{AND, XOR};
use crate::small_net::{NONE, SmallNet, literal_of, word_at};
use crate::strash::{create_gate, uncomplemented};
use rows::{Random, at, put};
use std::alloc::{AllocError, Global};

/// The most inputs of a table.
pub const MOST_INPUTS: u32 = 6;

/// Free rows are filled in at most so many steps.
const FILLING_STEPS: u32 = 64;

/// Tables of at most six inputs, a word for each output: the rows with the value 1, and those that matter. Bit k - 1 of
/// a row's number is the value of input k.
#[derive(Drop)]
pub struct Tables {
    inputs: u32,
    on: Vec<u64>,
    care: Vec<u64>,
}

/// An expansion: the inputs in their order, each complemented or not.
#[derive(Clone, Copy)]
struct Expansion {
    order: [u32; 6],
    complemented: u32,
}

/// The rows in which an input is 1, for the inputs from 0 on.
fn input_word(input: u32) -> u64 {
    match input {
        0 => 0xaaaa_aaaa_aaaa_aaaa,
        1 => 0xcccc_cccc_cccc_cccc,
        2 => 0xf0f0_f0f0_f0f0_f0f0,
        3 => 0xff00_ff00_ff00_ff00,
        4 => 0xffff_0000_ffff_0000,
        _ => 0xffff_ffff_0000_0000,
    }
}

/// The rows that tables of so many inputs have.
fn row_mask(inputs: u32) -> u64 {
    match inputs {
        0 => 0x1,
        1 => 0x3,
        2 => 0xf,
        3 => 0xff,
        4 => 0xffff,
        5 => 0xffff_ffff,
        _ => u64::MAX,
    }
}

/// The number of rows of tables of so many inputs.
fn row_count(inputs: u32) -> u32 {
    1u32.wrapping_shl(inputs.min(MOST_INPUTS))
}

/// A table as it is filled: the values, and the rows that have one.
#[derive(Clone, Copy)]
struct Filling {
    on: u64,
    known: u64,
}

impl Filling {
    /// Gives rows without a value that of the row in which an input has the other value.
    fn spread(self, input: u32) -> Filling {
        let high = input_word(input);
        let distance = row_count(input);
        let known = (self.known & high).wrapping_shr(distance)
            | (self.known & !high).wrapping_shl(distance);
        let on = (self.on & high).wrapping_shr(distance) | (self.on & !high).wrapping_shl(distance);
        let new = known & !self.known;
        Filling {
            on: self.on | (on & new),
            known: self.known | new,
        }
    }
}

/// A table with values in its free rows, copied from neighbours.
fn filled(inputs: u32, on: u64, care: u64, random: &mut Random) -> u64 {
    let mask = row_mask(inputs);
    let mut filling = Filling {
        on: on & care & mask,
        known: care & mask,
    };
    for _step in 0..FILLING_STEPS {
        if filling.known == mask || filling.known == 0 {
            break;
        }
        filling = filling.spread(random.below(inputs));
    }
    filling.on & mask
}

impl Expansion {
    /// A random one.
    fn sampled(inputs: u32, random: &mut Random) -> Expansion {
        let mut order = [0, 1, 2, 3, 4, 5];
        for step in 1..inputs.min(MOST_INPUTS) {
            let other = random.below(step.saturating_add(1));
            let (first, second) = (at(&order, step), at(&order, other));
            put(&mut order, step, second);
            put(&mut order, other, first);
        }
        Expansion {
            order,
            complemented: random.below(64),
        }
    }

    /// One without complements, in the natural order.
    fn positive() -> Expansion {
        Expansion {
            order: [0, 1, 2, 3, 4, 5],
            complemented: 0,
        }
    }

    /// Whether the input at a place is complemented: 1, else 0.
    fn polarity(&self, place: u32) -> u32 {
        self.complemented.wrapping_shr(place) & 1
    }

    /// The row of a place in the expansion's order.
    fn row(&self, inputs: u32, place: u32) -> u32 {
        let mut row = 0;
        for bit in 0..inputs.min(MOST_INPUTS) {
            row |= (place.wrapping_shr(bit) & 1).wrapping_shl(at(&self.order, bit));
        }
        row
    }

    /// A table in the expansion's order.
    fn permuted(&self, inputs: u32, table: u64) -> u64 {
        let mut permuted = 0;
        for place in 0..row_count(inputs) {
            permuted |= (table.wrapping_shr(self.row(inputs, place)) & 1).wrapping_shl(place);
        }
        permuted
    }

    /// The coefficients of a table in the expansion's order.
    fn coefficients(&self, inputs: u32, table: u64) -> u64 {
        let mut word = self.permuted(inputs, table);
        for bit in 0..inputs.min(MOST_INPUTS) {
            let high = input_word(bit);
            let distance = row_count(bit);
            let (low, up) = (word & !high, word & high);
            let kept = if self.polarity(bit) == 1 {
                up.wrapping_shr(distance)
            } else {
                low
            };
            word = kept | (up ^ low.wrapping_shl(distance));
        }
        word & row_mask(inputs)
    }
}

/// One level of the expansion: the literal of each two neighbours is the first XOR the variable AND the second.
fn davio_level(
    net: &mut SmallNet,
    choices: &Choices,
    literals: &mut [u32],
    count: u32,
    variable: u32,
) -> Result<(), AllocError> {
    for place in 0..count / 2 {
        let low = at(literals, place.wrapping_mul(2));
        let high = at(literals, place.wrapping_mul(2).wrapping_add(1));
        let product = create_gate(net, choices, AND, variable, high)?;
        let sum = create_gate(net, choices, XOR, low, product)?;
        put(literals, place, sum);
    }
    Ok(())
}

/// The constants that coefficients are.
fn constants(alloc: Global, inputs: u32, coefficients: u64) -> Result<Vec<u32>, AllocError> {
    let mut literals = Vec::with_capacity(alloc, row_count(inputs) as usize)?;
    for place in 0..row_count(inputs) {
        literals.push((coefficients.wrapping_shr(place) & 1) as u32)?;
    }
    Ok(literals)
}

/// The literal of a table; NONE where the basis can't make it so.
fn literal_of_table(
    alloc: Global,
    net: &mut SmallNet,
    choices: &Choices,
    table: u64,
    expansion: &Expansion,
) -> Result<u32, AllocError> {
    let inputs = net.inputs();
    let mut literals = constants(alloc, inputs, expansion.coefficients(inputs, table))?;
    let mut count = row_count(inputs);
    for bit in 0..inputs.min(MOST_INPUTS) {
        let input = at(&expansion.order, bit);
        let variable = literal_of(input.saturating_add(1), expansion.polarity(bit));
        davio_level(net, choices, &mut literals, count, variable)?;
        count /= 2;
    }
    Ok(at(&literals, 0))
}

/// A net without gates, with all rows of so many inputs.
fn inputs_alone(alloc: Global, inputs: u32) -> Result<SmallNet, AllocError> {
    let mut net = SmallNet::new(alloc, inputs, 1)?;
    for input in 0..inputs {
        net.set_word(input.saturating_add(1), 0, input_word(input));
    }
    Ok(net)
}

impl Tables {
    /// Tables of so many inputs without outputs. More than six inputs count as six.
    pub fn new(alloc: Global, inputs: u32) -> Tables {
        Tables {
            inputs: inputs.min(MOST_INPUTS),
            on: Vec::new(alloc),
            care: Vec::new(alloc),
        }
    }

    /// Adds an output: its rows with the value 1, and those that matter.
    pub fn push(&mut self, on: u64, care: u64) -> Result<(), AllocError> {
        let mask = row_mask(self.inputs);
        self.on.push(on & mask)?;
        self.care.push(care & mask)?;
        Ok(())
    }

    /// The number of inputs.
    pub fn inputs(&self) -> u32 {
        self.inputs
    }

    /// The rows that matter, a word for each output.
    pub fn care(&self) -> &[u64] {
        &self.care
    }

    /// Whether a net's outputs are the tables, where they matter.
    pub fn are_of(&self, net: &SmallNet) -> bool {
        for (index, on) in self.on.iter().enumerate() {
            let place = crate::small_net::small(index);
            let literal = at(net.outputs(), place);
            let polarity = if literal & 1 == 1 { u64::MAX } else { 0 };
            if (net.word(literal >> 1, 0) ^ polarity ^ *on) & word_at(&self.care, place) != 0 {
                return false;
            }
        }
        self.on.len() == net.outputs().len()
    }

    /// A net of the tables by an expansion; None where the basis can't make it so.
    fn expanded(
        &self,
        alloc: Global,
        choices: &Choices,
        expansion: &Expansion,
        random: &mut Random,
    ) -> Result<Option<SmallNet>, AllocError> {
        let mut net = inputs_alone(alloc, self.inputs)?;
        for (on, care) in self.on.iter().zip(self.care.iter()) {
            let table = filled(self.inputs, *on, *care, random);
            let mut literal = literal_of_table(alloc, &mut net, choices, table, expansion)?;
            if !choices.absorbs() {
                literal = uncomplemented(&mut net, choices, literal)?;
            }
            if literal == NONE {
                return Ok(None);
            }
            net.push_output(literal)?;
        }
        Ok(Some(net))
    }

    /// A net of the tables, by random choices; None where the basis can't make it by these expansions.
    pub fn random_start(
        &self,
        alloc: Global,
        choices: &Choices,
        random: &mut Random,
    ) -> Result<Option<SmallNet>, AllocError> {
        let expansion = Expansion::sampled(self.inputs, random);
        let net = self.expanded(alloc, choices, &expansion, random)?;
        if net.is_some() {
            return Ok(net);
        }
        self.expanded(alloc, choices, &Expansion::positive(), random)
    }
}
