// What `answer` does with its input: a line goes on by one turn of the machine, with the tables, and a text is printed. The functions are free
// ones, since `Run` is a type of `machine`.

#![tactic(auto)]

pub mod asking; // a query, answered from the stored tables
pub mod feeding; // the end of the input
pub mod steps; // a byte, and the line that it ends
pub mod turns; // what any line does
