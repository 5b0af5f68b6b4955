// The morning's heat maps, as text and as a picture.
#![tactic(auto)]

pub mod maps; // maps.rt: heat maps, as text and as a picture
