// Street maps behind one interface: the arcs of a city, a yard grid, and closures over any map.
#![tactic(auto)]

pub mod arc;
pub mod closures;
pub mod grid;
pub mod limits;
pub mod map;
pub mod marks;
pub mod refusal;
