//! The numbers of lines, up to the greatest one.
use line_reader::{LineStage, PieceReader};
use shown_lines::ShownStage;
use std::alloc::Global;

/// Whether a text whose first line has this number is read to its end, and each of its lines is shown.
fn is_shown_whole(alloc: Global, first: u32, text: &[u8]) -> bool {
    let reader = PieceReader {
        stage: ShownStage::start(alloc),
        number: first,
        unfinished: Vec::new(alloc),
    };
    let Ok(reader) = reader.feed(text) else {
        return false;
    };
    match reader.finish() {
        Ok(shown) => shown.as_slice() == text,
        Err(_) => false,
    }
}

#[test]
fn lines_are_read_up_to_the_greatest_number(rt: HostRuntime) {
    let alloc = rt.alloc();
    let two = is_shown_whole(alloc, 4_294_967_293, b"x1\nx2\n");
    let last = is_shown_whole(alloc, 4_294_967_294, b"x1");
    assert!(rt; two && last);
    let three = is_shown_whole(alloc, 4_294_967_293, b"x1\nx2\nx3\n");
    let unfinished = is_shown_whole(alloc, 4_294_967_294, b"x1\nx2");
    assert!(rt; !three && !unfinished);
}
