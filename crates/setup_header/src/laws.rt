ghost use Rattle.setup_header.specs.HeadLaws.{HeadGoesByPlaces};

/// A law: the head of a packet is what its bits say at their places. It is passed over exactly
/// where the first bit isn't 0, tells the block that the bits behind it name, and is bad exactly
/// where they name none.
pub fn head_goes_by_places()
    ensures { HeadGoesByPlaces }
{}
