use crate::pieces::Pieces;
use model_ogg::Mark;

/// One packet of a stream, by the pieces of the file in which it lies, or a loss.
#[derive(Debug, Drop)]
pub enum Entry {
    /// A whole packet.
    Packet { pieces: Pieces, mark: Option<Mark> },
    /// Some pages, or some part of a packet, are missing here.
    Lost,
}
