//! What a whole run promises of its devices and disks, as definitions: the last parts of the headline.
#![tactic(auto)]
