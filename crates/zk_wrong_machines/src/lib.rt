//! Machines that are wrong in one line, each with a short history that it lets stand and a law that is false of it.
#![tactic(auto)]
