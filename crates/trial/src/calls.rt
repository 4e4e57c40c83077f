// A case: its letter says which entry is called.
use crate::{answer_calls, bounds, table_calls};
use cases::case::Case;
use cases::faults::Fault;
use cases::letters::Letter;
use cases::source::Input;
use cases::{printing, reading_on};
use rules::Report;
use std::io;
use std::io::{Read, Write};

// The entry of a letter.
fn call(letter: Letter, case: &mut Case<'_>) -> Report {
    match letter {
        Letter::Build => table_calls::build(case),
        Letter::Check => table_calls::check(case),
        Letter::Direct => answer_calls::direct(case),
        Letter::Stored => answer_calls::stored(case),
        Letter::Class => answer_calls::class(case),
        Letter::Pairs => bounds::pairs(case),
        Letter::Lookup => bounds::lookup(case),
    }
}

// A proved loop has to end, and nothing says that the input does: the lines are counted, up to a number that no run comes to.
pub fn answer_lines<R: Read>(
    input: &mut Input<'_, R>,
    case: &mut Case<'_>,
    out: &mut impl Write,
) -> io::Result<()> {
    for _ in 0..u64::MAX {
        match reading_on::next_case_or_note(input, case) {
            Ok(Some(letter)) => {
                let report = call(letter, case);
                printing::print_case(out, letter, report, case)?;
            }
            Ok(None) => return Ok(()),
            Err(Fault::NoCase) => {
                out.write_all(b"no case\n")?;
                return out.flush();
            }
            Err(Fault::Input(e)) => return Err(e),
        }
    }
    Ok(())
}
