// From a line to a case, as in `reading`; but a fault behind the letter is noted, and the line is read on all the same, as far as it always was:
// what a reader takes from a stream is seen at its other end.
ghost use Rattle.std.specs.Prelude.{◌≡◌, true, IfOk, OnSome};
ghost use Rattle.cases.specs.Noting.{is_sound};

use crate::case::Case;
use crate::faults::Fault;
use crate::letters::{Letter, List};
use crate::lists::Lent;
use crate::source::Input;
use std::io;
use std::io::Read;

// Reads the words of a list that has its length. Behind a word that is at fault, or that follows a fault, the rest of the list is not
// read. A `while`: each turn goes on by the length of a run.
fn read_words<T: Copy + TryFrom<u32>, R: Read>(
    input: &mut Input<'_, R>,
    numbers: &mut [T],
) -> io::Result<()>
where
    <T as TryFrom<u32>>::Error: Drop,
{
    let mut at = 0;
    while at < numbers.len() {
        let run = input.next_run_or_note()?;
        let Ok(value) = T::try_from(run.value) else {
            input.note_fault();
            return Ok(());
        };
        if !input.is_sound() || run.many == 0 || run.many > numbers.len() - at {
            input.note_fault();
            return Ok(());
        }
        let end = at + run.many;
        for number in &mut numbers[at..end] {
            *number = value;
        }
        at = end;
    }
    Ok(())
}

fn read_list<T: Copy + TryFrom<u32>, R: Read>(
    input: &mut Input<'_, R>,
    list: &mut Lent<'_, T>,
) -> io::Result<()>
where
    <T as TryFrom<u32>>::Error: Drop,
{
    let count = input.next_number_or_note()?;
    if !list.resize(count as usize) {
        input.note_fault();
        return Ok(());
    }
    read_words(input, list.numbers_mut())
}

impl Case<'_> {
    // No list has a number.
    fn clear(&mut self) {
        self.edges.resize(0);
        self.levels.resize(0);
        self.starts.resize(0);
        self.order.resize(0);
        self.entries.resize(0);
        self.tokens.resize(0);
        self.answers.resize(0);
        self.area.resize(0);
    }

    fn read_or_note<R: Read>(&mut self, list: List, input: &mut Input<'_, R>) -> io::Result<()> {
        match list {
            List::Edges => read_list(input, &mut self.edges),
            List::Levels => read_list(input, &mut self.levels),
            List::Starts => read_list(input, &mut self.starts),
            List::Order => read_list(input, &mut self.order),
            List::Entries => read_list(input, &mut self.entries),
            List::Tokens => read_list(input, &mut self.tokens),
            List::Answers => read_list(input, &mut self.answers),
            List::Area => read_list(input, &mut self.area),
        }
    }
}

// Reads a line, unless the input is at its end: the letter of the case. Lists that the letter does not have are empty.
pub fn next_case_or_note<R: Read>(
    input: &mut Input<'_, R>,
    case: &mut Case<'_>,
) -> Result<Option<Letter>, Fault>
    ensures told { IfOk result (λ found. OnSome found (is_sound input.new ≡ true)) }
{
    let Some(byte) = input.peek()? else {
        return Ok(None);
    };
    let letter = Letter::of(byte).ok_or(Fault::NoCase)?;
    input.skip();
    case.clear();
    for number in case.numbers.iter_mut().take(letter.numbers()) {
        *number = input.next_number_or_note()?;
    }
    for list in letter.lists() {
        case.read_or_note(*list, input)?;
    }
    input.expect_or_note(b'\n')?;
    if !input.is_sound() {
        return Err(Fault::NoCase);
    }
    Ok(Some(letter))
}

#[cfg(test)]
mod tests {
    use super::*;

    // Behind a case stands a line with nothing behind its number: it is read to its end all the same, the list of the case before is empty, and no
    // line that follows is a case.
    #[test]
    fn a_line_that_is_read_on(rt: HostRuntime) {
        let mut edges = [0u32; 4];
        let mut levels = [0u32; 4];
        let mut starts = [0u32; 4];
        let mut order = [0u32; 4];
        let mut entries = [0u32; 4];
        let mut tokens = [0u8; 4];
        let mut answers = [0u32; 4];
        let mut area = [0u8; 4];
        let mut case = Case {
            numbers: [0; 3],
            edges: Lent::new(&mut edges),
            levels: Lent::new(&mut levels),
            starts: Lent::new(&mut starts),
            order: Lent::new(&mut order),
            entries: Lent::new(&mut entries),
            tokens: Lent::new(&mut tokens),
            answers: Lent::new(&mut answers),
            area: Lent::new(&mut area),
        };
        let mut text: &[u8] = b"L 2 1 3 0\nP 6\nL 0 0\n";
        let mut buffer = [0u8; 8];
        let mut input = Input::new(&mut text, &mut buffer);
        assert!(rt;
            matches!(
                next_case_or_note(&mut input, &mut case),
                Ok(Some(Letter::Lookup))
            )
        );
        assert_eq!(rt; case.tokens.numbers(), [1, 3].as_slice());
        assert!(rt; matches!(next_case_or_note(&mut input, &mut case), Err(Fault::NoCase)));
        assert_eq!(rt; case.numbers, [6, 0, 0]);
        assert!(rt; case.tokens.numbers().is_empty());
        assert!(rt; matches!(input.peek(), Ok(Some(b'L'))));
        assert!(rt; matches!(next_case_or_note(&mut input, &mut case), Err(Fault::NoCase)));
        assert!(rt; matches!(next_case_or_note(&mut input, &mut case), Ok(None)));
        assert!(rt; !input.is_sound());
    }
}
