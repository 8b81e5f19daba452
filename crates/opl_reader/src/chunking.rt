//! What calls of `feed` and `finish` give together. The functions do nothing: the contract of each is a law.

ghost use Rattle.opl_reader.specs.Chunking.{NothingFed, OneMorePiece, AnyChunking, FinishGivesTheRest};
ghost use Rattle.opl_reader.specs.BadLines.{FirstFaultIsReported, LastFaultIsReported, FirstTooLongIsReported};

/// A new reader has handed out the objects of no bytes.
pub fn nothing_is_fed_at_first()
    ensures { NothingFed }
{}

/// One call of `feed` hands out the objects of the bytes that it used, after those fed before.
pub fn one_more_piece_is_read()
    ensures { OneMorePiece }
{}

/// However an input is cut into pieces, the objects handed out are those of the whole lines fed so far.
pub fn any_chunking_gives_the_objects()
    ensures { AnyChunking }
{}

/// Together with what `finish` gives, they are the objects of all lines.
pub fn finish_gives_the_rest()
    ensures { FinishGivesTheRest }
{}

/// A fault that `feed` reports is that of the first bad line, which ends in the piece.
pub fn first_fault_is_reported()
    ensures { FirstFaultIsReported }
{}

/// A fault that `finish` reports is that of the first bad line.
pub fn last_fault_is_reported()
    ensures { LastFaultIsReported }
{}

/// A line that is reported as too long is the first bad one, and the piece made it too long.
pub fn first_too_long_is_reported()
    ensures { FirstTooLongIsReported }
{}
