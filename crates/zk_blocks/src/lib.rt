//! How a block of lines is read exactly, both ways: what has a text is read again, and what is read has that text. Definitions and
//! lemmas alone, for any lines and any things.
#![tactic(auto)]
