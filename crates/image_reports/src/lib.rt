//! The headline: what a run of an accepted source's image tells, on any trace, the source tells. It has no code that runs: what it
//! says of images are the contracts of its laws.
#![tactic(auto)]

mod image_law;
mod laws;

pub use image_law::{images_belong, images_keep_the_laws, images_resume};
pub use laws::{
    compiled_runs_are_told, images_answer_in_order, images_are_mapped, images_are_told,
    images_keep_capacities, images_keep_their_stacks, images_keep_to_needs, models_are_of_sources,
};
