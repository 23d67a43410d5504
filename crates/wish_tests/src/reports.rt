//! Reports, and gates that a basis can't express.
ghost use Rattle.settings.specs.Improve.{IsInRange};

use cdcl_core::Cdcl;
use improve_wishes::{CoversAsked, FormAsked, LevelsAsked, WishedText, Wishes, wished_blif};
use op_basis::Basis;
use progress::Silent;
use settings::ImproveSettings;
use std::alloc::Global;

/// The default settings.
fn defaults() -> ImproveSettings
    ensures { IsInRange result }
{
    ImproveSettings::defaults()
}

/// The default settings over NAND alone.
fn nands() -> ImproveSettings
    ensures { IsInRange result }
{
    ImproveSettings {
        basis: Basis::new(16_384),
        ..ImproveSettings::defaults()
    }
}

/// The default settings over XOR alone.
fn xors() -> ImproveSettings
    ensures { IsInRange result }
{
    ImproveSettings {
        basis: Basis::new(64),
        ..ImproveSettings::defaults()
    }
}

/// The report, or the name of a gate that the basis can't express; None if there is another answer.
fn report_of(
    alloc: Global,
    settings: ImproveSettings,
    only: bool,
    levels: LevelsAsked,
    text: &[u8],
) -> Option<Vec<u8>>
    requires { IsInRange settings }
{
    if text.len() > 10_000 {
        return None;
    }
    let wishes = Wishes {
        only,
        levels,
        form: FormAsked::Given,
        covers: CoversAsked::Rows,
    };
    match wished_blif::<Cdcl, Silent>(alloc, text, settings, wishes, &Silent) {
        Ok(WishedText::Text(improved)) => Some(improved.report),
        Ok(WishedText::Cannot(name)) => Some(name),
        Ok(WishedText::TooMany) => None,
        Err(_) => None,
    }
}

/// Whether this is the report.
fn is_report(found: Option<Vec<u8>>, wanted: &[u8]) -> bool {
    match found {
        Some(report) => report.as_slice() == wanted,
        None => false,
    }
}

const XOR: &[u8] = b".model m\n.inputs a b\n.outputs y\n.names a b y\n01 1\n10 1\n.end\n";

const AND: &[u8] = b".model m\n.inputs a b\n.outputs y\n.names a b y\n11 1\n.end\n";

const NOT: &[u8] = b".model m\n.inputs a b\n.outputs y\n.names a y\n0 1\n.end\n";

const COPY: &[u8] = b".model m\n.inputs a b\n.outputs y\n.names a y\n1 1\n.end\n";

/// XOR, and an AND that nothing reads.
const UNREAD: &[u8] =
    b".model m\n.inputs a b\n.outputs y\n.names a b u\n11 1\n.names a b y\n01 1\n10 1\n.end\n";

/// A wish of levels, a netlist, and the report.
const REPORTS: &[(LevelsAsked, &[u8], &[u8])] = &[
    (LevelsAsked::Untold, XOR, b"gates 1 -> 1\nsettled\n"),
    (
        LevelsAsked::Tell,
        XOR,
        b"gates 1 -> 1\nlevels 1 -> 1\nsettled\n",
    ),
    (LevelsAsked::Keep, XOR, b"gates 1 -> 1\nlevels 1 -> 1\n"),
    (LevelsAsked::Most(9), COPY, b"gates 0 -> 0\nlevels 0 -> 0\n"),
];

#[test]
fn levels_are_told(rt: HostRuntime) {
    for &(levels, text, wanted) in REPORTS {
        let found = report_of(rt.alloc(), defaults(), false, levels, text);
        assert!(rt; is_report(found, wanted));
    }
}

/// The same over NAND and no other operator.
const OVER_NAND: &[(LevelsAsked, &[u8], &[u8])] = &[
    (
        LevelsAsked::Tell,
        XOR,
        b"gates 4 -> 4\nlevels 3 -> 3\nsettled\n",
    ),
    (LevelsAsked::Untold, AND, b"gates 2 -> 2\nsettled\n"),
    (LevelsAsked::Keep, AND, b"gates 2 -> 2\nlevels 2 -> 2\n"),
];

#[test]
fn netlists_are_over_nand(rt: HostRuntime) {
    for &(levels, text, wanted) in OVER_NAND {
        let found = report_of(rt.alloc(), nands(), true, levels, text);
        assert!(rt; is_report(found, wanted));
    }
}

/// A netlist, and its report over XOR alone, or the name of the gate that XOR can't express.
const OVER_XOR: &[(&[u8], &[u8])] = &[
    (AND, b"y"),
    (UNREAD, b"gates 1 -> 1\nsettled\n"),
    (NOT, b"gates 1 -> 1\nsettled\n"),
];

#[test]
fn gates_that_are_read_are_expressed(rt: HostRuntime) {
    for &(text, wanted) in OVER_XOR {
        let found = report_of(rt.alloc(), xors(), true, LevelsAsked::Untold, text);
        assert!(rt; is_report(found, wanted));
    }
}
