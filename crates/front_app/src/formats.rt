//! Formats as types, and orders of comparisons as types, so that a program promises of its comparisons which formats
//! they are in, and whether they are by names.
use format_names::NetFormat;

/// A format that is known by its type.
pub trait KnownFormat {
    ghost use Rattle.std.specs.Prelude.{◌≡◌};
    ghost use Rattle.format_names.specs.declared.formats.NetFormat.{NetFormat};

    /// The format.
    ghost named: { NetFormat };

    /// The format.
    fn format() -> NetFormat
        ensures { result ≡ named };
}

/// BLIF.
#[derive(Clone, Copy)]
pub struct InBlif;

impl KnownFormat for InBlif {
    ghost use Rattle.format_names.specs.declared.formats.NetFormat.TheVariants.{Blif};

    ghost named = { Blif };

    fn format() -> NetFormat {
        NetFormat::Blif
    }
}

/// BENCH.
#[derive(Clone, Copy)]
pub struct InBench;

impl KnownFormat for InBench {
    ghost use Rattle.format_names.specs.declared.formats.NetFormat.TheVariants.{Bench};

    ghost named = { Bench };

    fn format() -> NetFormat {
        NetFormat::Bench
    }
}

/// AIGER in its ASCII or its binary form, as the text says.
#[derive(Clone, Copy)]
pub struct InAiger;

impl KnownFormat for InAiger {
    ghost use Rattle.format_names.specs.declared.formats.NetFormat.TheVariants.{Aiger};

    ghost named = { Aiger };

    fn format() -> NetFormat {
        NetFormat::Aiger
    }
}

/// How the inputs, outputs and latches of two netlists correspond.
#[derive(Clone, Copy)]
pub enum CompareBy {
    /// By their order.
    Order,
    /// By their names.
    Names,
}

/// A correspondence that is known by its type.
pub trait KnownWay {
    ghost use Rattle.std.specs.Prelude.{◌≡◌};
    ghost use Rattle.front_app.specs.declared.formats.CompareBy.{CompareBy};

    /// The correspondence.
    ghost way: { CompareBy };

    /// The correspondence.
    fn compares_by() -> CompareBy
        ensures { result ≡ way };
}

/// By their order.
#[derive(Clone, Copy)]
pub struct ByOrder;

impl KnownWay for ByOrder {
    ghost use Rattle.front_app.specs.declared.formats.CompareBy.TheVariants.{Order};

    ghost way = { Order };

    fn compares_by() -> CompareBy {
        CompareBy::Order
    }
}

/// By their names.
#[derive(Clone, Copy)]
pub struct ByNames;

impl KnownWay for ByNames {
    ghost use Rattle.front_app.specs.declared.formats.CompareBy.TheVariants.{Names};

    ghost way = { Names };

    fn compares_by() -> CompareBy {
        CompareBy::Names
    }
}
