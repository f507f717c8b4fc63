//! What is promised of every run, as definitions: the sound world with what goes along with it, what is
//! never told, why commands fail, and what they come to where nothing stands in their way.
#![tactic(auto)]
