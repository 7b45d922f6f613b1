//! Home routers that each choose between what they learn and what the others tell: if all routes of each neighbour AS
//! have the same MED, only one table of each router fits all of these choices.
#![tactic(auto)]

mod laws;

pub use laws::{
    equal_meshes_have_equal_tables, even_meshes_have_one_solution, settled_tables_are_the_solution,
    uneven_meshes_have_two,
};
