//! Resample, fed one item at a time.
//!
//! A Resample keeps the law of operators, and what a new one gives is exactly the list function of a Resample on whole
//! lists. It gives a left tuple as soon as no right one that is near it can come any more, so it holds back only what is
//! no more than the size before the last item; it decides nothing and throws nothing away. Its state keeps only right
//! tuples that a left one can still need. Below stand the law, the list functions and the rounds of `sq_rounds`.
#![tactic(auto)]

mod resample;

pub use resample::ResampleBox;
