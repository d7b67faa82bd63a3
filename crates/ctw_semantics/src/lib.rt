//! What running code means: values, stores and activations, one reduction, steps and turns, what an onlooker sees of
//! them, which states are sound, and what is left of a state when its labels are erased. This crate has definitions
//! and their laws, and no work.
#![tactic(auto)]

mod laws;

pub use laws::{
    agreeing_runs_look_the_same, agreement_hides_secrets_alone, begun_calls_are_sound,
    erased_calls_take_the_same_steps, erased_code_keeps_its_form,
    erased_functions_are_those_of_the_erased_module, refused_growth_changes_operands_alone,
    sound_calls_are_never_stuck, steps_are_reductions, typed_bodies_are_typed_instances,
    untrusted_sets_release_nothing,
};
