//! The texts of the trial of the program by itself: a database, and a worksheet of any number of blocks. It has definitions
//! and no code of its own.
#![tactic(auto)]
