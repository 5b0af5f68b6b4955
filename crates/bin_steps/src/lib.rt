// One step of a syntax, from a payload by the arithmetic engine or from a list: what a reader of any syntax is made of.
#![tactic(auto)]

pub mod seldom; // seldom.rt: steps that are taken seldom
pub mod steps; // steps.rt: a step from whichever source a reader reads
