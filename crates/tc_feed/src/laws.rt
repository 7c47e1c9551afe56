//! The law of cutting a stream.
ghost use Rattle.tc_feed.specs.CutStream.{IsFoundInMore, IsCutAnywhere};

/// States that a stream holds the same requests however it is cut. Two pieces add what their bytes
/// add as one piece. A request found in some bytes is also found if more bytes follow.
pub fn cutting()
    ensures found { IsFoundInMore }
    ensures pieces { IsCutAnywhere }
{}
