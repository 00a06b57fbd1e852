// Sheets: the two lines are read, and judged to be a refusal or a round.
// Rests on decimals for the readers of fields, refusals, levels for test 9 and successors for the forms. What is printed is in printing.
#![tactic(auto)]

pub mod judge;
pub mod sheet;
