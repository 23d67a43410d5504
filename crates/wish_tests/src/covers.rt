//! Texts with the covers that are wished for.
ghost use Rattle.settings.specs.Improve.{IsInRange};

use cdcl_core::Cdcl;
use improve_wishes::{CoversAsked, FormAsked, LevelsAsked, WishedText, Wishes, wished_blif};
use progress::Silent;
use settings::ImproveSettings;
use std::alloc::Global;

/// The default settings.
fn defaults() -> ImproveSettings
    ensures { IsInRange result }
{
    ImproveSettings::defaults()
}

/// The improved text; None if the text isn't a netlist.
fn text_of(alloc: Global, covers: CoversAsked, text: &[u8]) -> Option<Vec<u8>> {
    if text.len() > 10_000 {
        return None;
    }
    let wishes = Wishes {
        only: false,
        levels: LevelsAsked::Untold,
        form: FormAsked::Given,
        covers,
    };
    match wished_blif::<Cdcl, Silent>(alloc, text, defaults(), wishes, &Silent) {
        Ok(WishedText::Text(improved)) => Some(improved.text),
        Ok(_) => None,
        Err(_) => None,
    }
}

/// Whether this is the text.
fn is_text(found: Option<Vec<u8>>, wanted: &[u8]) -> bool {
    match found {
        Some(text) => text.as_slice() == wanted,
        None => false,
    }
}

const OR_BY_ONES: &[u8] =
    b".model m\n.inputs a b\n.outputs y\n.names a b y\n01 1\n10 1\n11 1\n.end\n";

const OR_BY_ZERO: &[u8] = b".model m\n.inputs a b\n.outputs y\n.names a b y\n00 0\n.end\n";

const XOR: &[u8] = b".model m\n.inputs a b\n.outputs y\n.names a b y\n01 1\n10 1\n.end\n";

/// Covers, a netlist, and the text with these covers.
const TEXTS: &[(CoversAsked, &[u8], &[u8])] = &[
    (CoversAsked::Rows, OR_BY_ZERO, OR_BY_ONES),
    (CoversAsked::Least, OR_BY_ONES, OR_BY_ZERO),
    (CoversAsked::Least, XOR, XOR),
];

#[test]
fn tables_have_the_covers(rt: HostRuntime) {
    for &(covers, text, wanted) in TEXTS {
        let found = text_of(rt.alloc(), covers, text);
        assert!(rt; is_text(found, wanted));
    }
}
