//! Depth certificates in pieces, cut anywhere. A reader keeps the stage after the whole lines so far, and the
//! unfinished line. So its state depends on the text so far alone, not on where the pieces end.
use crate::stage::Stage;
use line_reader::PieceReader;

/// A reader of a depth certificate. It keeps its stage, which has the checker of one log at most, and the
/// unfinished line, but no earlier lines. At the end it returns the verdict (`specs/StageAnswers`: `Ends`).
pub type DepthReader = PieceReader<Stage>;
