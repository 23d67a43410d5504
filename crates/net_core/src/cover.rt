//! Covers (sums of products) as in the Berkeley BLIF manual: cubes of the on-set or of the off-set.

ghost use Rattle.std.specs.Prelude.{◌≡◌};

use std::marker::Model;

/// A cube: one byte for each input, `0`, `1` or `-`.
#[derive(Drop)]
pub struct Cube(Vec<u8>);

impl Model for Cube {
    ghost use Rattle.std.specs.Prelude.{List, ℕ};

    ghost Value = { List ℕ };

    ghost view = { λ c. c.0.items };
}

impl Cube {
    /// The cube with these bytes.
    pub fn new(bytes: Vec<u8>) -> Cube
        ensures { result ≡ bytes.items }
    {
        Cube(bytes)
    }

    /// The cube's bytes.
    pub fn get(&self) -> &[u8]
        ensures { result.now ≡ self.now }
    {
        &self.0
    }
}

/// A cover of `width` inputs: cubes of `width` bytes, which describe the on-set if `on` is true, else the
/// off-set. A cover without cubes is constantly 0.
#[derive(Drop)]
pub struct Cover {
    pub width: u32,
    pub cubes: Vec<Cube>,
    pub on: bool,
}

impl Model for Cover {
    ghost use Rattle.std.specs.Prelude.{false};
    ghost use Rattle.net_theory.specs.Cover as cover;

    ghost Value = { cover.Cover };

    ghost view = { λ c. record { width = c.width; cubes = c.cubes.items; on = c.on; parity = false } };
}
