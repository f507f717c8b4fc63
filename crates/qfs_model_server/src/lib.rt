//! A chunk server as definitions: its state and its step.
#![tactic(auto)]
