//! Bit-parallel simulation of all nodes, 64 assignments at a time. Each node has a signature, a hash of its
//! values: nodes with different signatures are neither equal nor complementary. Values are hashed up to
//! complement: the polarity of a node is its first value, and is removed from each word.

use crate::nodes::{Edge, Nodes};
use crate::random::{generator, sparse};
use op_basis::on_words;
use rows::{Random, entry, put};
use sat_solve::Solver;
use std::alloc::{AllocError, Global};

/// The number of words of 64 random assignments that are simulated at first.
const WORDS: u32 = 64;

/// What simulation has shown so far. All arrays are indexed by variable.
#[derive(Drop)]
pub(crate) struct Patterns {
    random: Random,
    /// The values under the last 64 assignments.
    words: Vec<u64>,
    /// The polarity of each node, in all bits: the first value that it had.
    polarities: Vec<u64>,
    /// A hash of all words so far, with the polarity removed.
    signatures: Vec<u64>,
}

/// A signature with one more word mixed in. The constants are those of `boost::hash_combine` and of the finalizer
/// of MurmurHash3.
fn mixed(signature: u64, word: u64) -> u64 {
    let spread = word
        .wrapping_add(0x9e37_79b9_7f4a_7c15)
        .wrapping_add(signature << 6)
        .wrapping_add(signature >> 2);
    let product = (signature ^ spread).wrapping_mul(0xff51_afd7_ed55_8ccd);
    product ^ (product >> 29)
}

/// A word all of whose bits are the lowest bit of `word`.
fn lowest(word: u64) -> u64 {
    if word & 1 == 1 { u64::MAX } else { 0 }
}

/// Computes the values of all gates from those of the sources.
fn simulate(nodes: &Nodes, words: &mut [u64]) {
    for (variable, node) in nodes.nodes.iter().enumerate() {
        if variable > nodes.sources as usize && variable < words.len() {
            let a = entry(words, node.a, 0);
            let b = entry(words, node.b, 0);
            words[variable] = on_words(node.op, a, b);
        }
    }
}

/// The values of a signal.
fn edge_word(words: &[u64], edge: Edge) -> u64 {
    let word = entry(words, edge.variable, 0);
    if edge.complemented { !word } else { word }
}

/// The first assignment under which a sink differs, as a mask with one bit; 0 if there is none.
fn differing(nodes: &Nodes, words: &[u64]) -> u64 {
    for (one, other) in nodes.first_sinks.iter().zip(nodes.second_sinks.iter()) {
        let differ = edge_word(words, *one) ^ edge_word(words, *other);
        if differ != 0 {
            return differ & differ.wrapping_neg();
        }
    }
    0
}

impl Patterns {
    /// Simulates random assignments, up to the first word in which a sink differs.
    pub(crate) fn new(alloc: Global, nodes: &Nodes) -> Result<Patterns, AllocError> {
        let count = nodes.count();
        let mut patterns = Patterns {
            random: generator(),
            words: vec![in alloc; 0u64; count]?,
            polarities: vec![in alloc; 0u64; count]?,
            signatures: vec![in alloc; 0u64; count]?,
        };
        patterns.begin(nodes);
        Ok(patterns)
    }

    /// Simulates the first random assignments.
    fn begin(&mut self, nodes: &Nodes) {
        for turn in 0..WORDS {
            self.draw(nodes.sources);
            simulate(nodes, &mut self.words);
            if turn == 0 {
                self.set_polarities();
            }
            self.mix_words();
            if self.is_different(nodes) {
                return;
            }
        }
    }

    /// Gives each source a random word.
    fn draw(&mut self, sources: u32) {
        for source in 1..=sources {
            let word = self.random.word();
            put(&mut self.words, source, word);
        }
    }

    /// Gives each source its value in the solver in the lowest lane, with 63 neighbours that mostly agree with it;
    /// or a random word if it has no value.
    fn draw_near<S: Solver>(&mut self, sources: u32, solver: &S) {
        for source in 1..=sources {
            let word = match solver.bit(source) {
                Some(true) => !sparse(&mut self.random),
                Some(false) => sparse(&mut self.random),
                None => self.random.word(),
            };
            put(&mut self.words, source, word);
        }
    }

    /// Sets the polarities from the current words.
    fn set_polarities(&mut self) {
        for (polarity, word) in self.polarities.iter_mut().zip(self.words.iter()) {
            *polarity = lowest(*word);
        }
    }

    /// Mixes the current words into the signatures.
    fn mix_words(&mut self) {
        let seen = self.words.iter().zip(self.polarities.iter());
        for (signature, (word, polarity)) in self.signatures.iter_mut().zip(seen) {
            *signature = mixed(*signature, *word ^ *polarity);
        }
    }

    /// Simulates the solver's current assignment and its neighbours, and refines the signatures.
    pub(crate) fn learn<S: Solver>(&mut self, nodes: &Nodes, solver: &S) {
        self.draw_near(nodes.sources, solver);
        simulate(nodes, &mut self.words);
        self.mix_words();
    }

    /// Whether a sink differs under one of the last 64 assignments.
    pub(crate) fn is_different(&self, nodes: &Nodes) -> bool {
        differing(nodes, &self.words) != 0
    }

    /// The values of the sources under the first of the last 64 assignments at which a sink differs.
    pub(crate) fn difference(
        &self,
        alloc: Global,
        nodes: &Nodes,
    ) -> Result<Option<Vec<bool>>, AllocError> {
        let lane = differing(nodes, &self.words);
        if lane == 0 {
            return Ok(None);
        }
        let mut bits = Vec::with_capacity(alloc, nodes.sources as usize)?;
        for source in 1..=nodes.sources {
            let word = entry(&self.words, source, 0);
            bits.push(word & lane != 0)?;
        }
        Ok(Some(bits))
    }

    /// The signature of a node.
    pub(crate) fn signature_of(&self, variable: u32) -> u64 {
        entry(&self.signatures, variable, 0)
    }

    /// Whether two nodes with one signature are candidates for complementary rather than equal values.
    pub(crate) fn are_complementary(&self, x: u32, y: u32) -> bool {
        entry(&self.polarities, x, 0) != entry(&self.polarities, y, 0)
    }
}
