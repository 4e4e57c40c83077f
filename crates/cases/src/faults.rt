// Why no case was read.
use std::io;

#[derive(Debug, Drop)]
pub enum Fault {
    // the line is no case
    NoCase,
    // the input could not be read
    Input(io::Error),
}

impl From<io::Error> for Fault {
    fn from(e: io::Error) -> Fault {
        Fault::Input(e)
    }
}
