//! What is read of made films: their pages have places, their packets decode to blocks of the modes
//! that were drawn, and each of them is accepted.
#![tactic(auto)]

ghost use Rattle.trial_film_laws.specs.Laws.{MadeFilmsAreAccepted, MadeLinksAreDrawn, MadePagesHavePlaces, MadePacketsAreBlocks};

/// A law: each made film has the three links, and of each as many packets as it is to have, which
/// decode to blocks of the modes that were drawn.
pub fn made_links_are_drawn()
    ensures { MadeLinksAreDrawn }
{}

/// A law: the fields of all pages of a made film have places.
pub fn made_pages_have_places()
    ensures { MadePagesHavePlaces }
{}

/// A law: the made film of every number is accepted, and these are its links.
pub fn made_films_are_accepted()
    ensures { MadeFilmsAreAccepted }
{}

/// A law: every packet of a made film is a block.
pub fn made_packets_are_blocks()
    ensures { MadePacketsAreBlocks }
{}
