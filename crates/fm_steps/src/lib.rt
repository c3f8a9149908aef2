//! The search machine: its states, its events with what each asks for and changes, its menu, its steps and runs, and the
//! laws of them. It computes nothing.
#![tactic(auto)]

mod laws;

pub use laws::{
    clauses_stay_distinct, contents_are_grounded, events_fit, events_keep, instances_stand,
    lemmas_are_due, lemmas_are_lines, offered_instances_are_met, offers_are_met, offers_are_ready,
    readers_go_back, rows_are_written, runs_are_lawful, runs_are_sound, runs_are_written,
    runs_follow_the_menu, sat_is_exact, sizes_are_in_row, start_is_lawful, start_is_written,
    states_are_known, steps_go_on, steps_keep, steps_leave_less, terms_stay_held, the_start_stays,
};
