//! Linked sets as they run: their function instances, how their stores are launched, and that these are sound, as are
//! those of the erased sets. This crate has definitions and their laws, and no work.
#![tactic(auto)]

mod laws;

pub use laws::{
    erased_sets_launch_alike, erased_sets_match, globals_begin_as_declared,
    instances_are_their_owners, launched_stores_are_sound, launches_end_as_told,
    linked_parts_are_sound, matching_sets_are_sound, offers_lead,
    untrusted_types_give_untrusted_functions,
};
