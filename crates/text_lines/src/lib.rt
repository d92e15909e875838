// What the programs that read and write lines share: the lines of standard input, the words of a line with what they stand for, and the parts of
// an answer.
#![tactic(auto)]

pub mod spelling; // which name a word is, and the f64 whose bits it spells
pub mod words; // a line's words, one after the other
pub mod print; // numbers as answers show them
pub mod calls; // how the line of a call is answered
pub mod input; // standard input by lines
pub mod report; // rounds, the clock and the lines of the programs that time calls
