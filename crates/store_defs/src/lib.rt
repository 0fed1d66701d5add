//! What contracts see of the stores of values: ids and what they stand for, the ids of darts, and groups of darts with a
//! value. There is no code here. No claim of the program rests on these words: they stand between its layers alone.
#![tactic(auto)]
