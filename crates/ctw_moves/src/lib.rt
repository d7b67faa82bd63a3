//! Sessions: running calls in 64 slots over one store, a vault and sealed bytes, and the moves that a script makes.
//! This crate has definitions and their laws, and no work.
#![tactic(auto)]

mod laws;

pub use laws::{
    agreeing_moves_look_the_same, agreeing_states_hide_secrets_alone,
    arguments_stand_for_their_numbers, erased_moves_do_the_same, erased_sessions_do_the_same,
    exports_are_there, moves_are_refused_in_order, moves_do_what_they_tell, moves_keep_limits,
    moves_keep_states_sound, moves_take_and_append, refused_moves_change_nothing,
    turns_are_never_stuck, untrusted_sets_release_nothing, vaults_stay_hidden,
};
