// From a line to a case: the numbers that the entry takes, then each list as its count, numbers and runs. A fault is answered, and not noted;
// nothing behind it is read, so that a caller may go on from there.
ghost use Rattle.std.specs.Prelude.{◌≡◌};
ghost use Rattle.cases.specs.Noting.{is_sound};

use crate::case::Case;
use crate::faults::Fault;
use crate::letters::{Letter, List};
use crate::lists::Lent;
use crate::source::Input;
use std::io::Read;

// Reads the words of a list that has its length. A `while`: each turn goes on by the length of a run.
fn read_words<T: Copy + TryFrom<u32>, R: Read>(
    input: &mut Input<'_, R>,
    numbers: &mut [T],
) -> Result<(), Fault>
where
    <T as TryFrom<u32>>::Error: Drop,
    ensures kept { is_sound input.new ≡ is_sound input.old }
{
    let mut at = 0;
    while at < numbers.len() {
        let run = input.next_run()?;
        let Ok(value) = T::try_from(run.value) else {
            return Err(Fault::NoCase);
        };
        if run.many == 0 || run.many > numbers.len() - at {
            return Err(Fault::NoCase);
        }
        let end = at + run.many;
        for number in &mut numbers[at..end] {
            *number = value;
        }
        at = end;
    }
    Ok(())
}

fn read_list<T: Copy + TryFrom<u32>, R: Read>(
    input: &mut Input<'_, R>,
    list: &mut Lent<'_, T>,
) -> Result<(), Fault>
where
    <T as TryFrom<u32>>::Error: Drop,
    ensures kept { is_sound input.new ≡ is_sound input.old }
{
    let count = input.next_number()?;
    if !list.resize(count as usize) {
        return Err(Fault::NoCase);
    }
    read_words(input, list.numbers_mut())
}

impl Case<'_> {
    fn read<R: Read>(&mut self, list: List, input: &mut Input<'_, R>) -> Result<(), Fault>
        ensures kept { is_sound input.new ≡ is_sound input.old }
    {
        match list {
            List::Edges => read_list(input, &mut self.edges),
            List::Levels => read_list(input, &mut self.levels),
            List::Starts => read_list(input, &mut self.starts),
            List::Order => read_list(input, &mut self.order),
            List::Entries => read_list(input, &mut self.entries),
            List::Tokens => read_list(input, &mut self.tokens),
            List::Answers => read_list(input, &mut self.answers),
            List::Area => read_list(input, &mut self.area),
        }
    }
}

// Reads a line, unless the input is at its end: the letter of the case.
pub fn next_case<R: Read>(
    input: &mut Input<'_, R>,
    case: &mut Case<'_>,
) -> Result<Option<Letter>, Fault>
    ensures kept { is_sound input.new ≡ is_sound input.old }
{
    let Some(byte) = input.peek()? else {
        return Ok(None);
    };
    let letter = Letter::of(byte).ok_or(Fault::NoCase)?;
    input.skip();
    for number in case.numbers.iter_mut().take(letter.numbers()) {
        *number = input.next_number()?;
    }
    for list in letter.lists() {
        case.read(*list, input)?;
    }
    input.expect(b'\n')?;
    Ok(Some(letter))
}

#[cfg(test)]
mod tests {
    use super::*;

    // The first line is at fault in its second list, for which there is no room: what stands before the fault is read, and the reader stands behind
    // it. The line's end is passed, and the next line is read; a list that its letter does not have stays.
    #[test]
    fn a_line_behind_a_fault(rt: HostRuntime) {
        let mut edges = [0u32; 4];
        let mut levels = [0u32; 4];
        let mut starts = [0u32; 4];
        let mut order = [0u32; 4];
        let mut entries = [0u32; 4];
        let mut tokens = [0u8; 4];
        let mut answers = [0u32; 4];
        let mut area = [0u8; 4];
        let mut case = Case {
            numbers: [0; 3],
            edges: Lent::new(&mut edges),
            levels: Lent::new(&mut levels),
            starts: Lent::new(&mut starts),
            order: Lent::new(&mut order),
            entries: Lent::new(&mut entries),
            tokens: Lent::new(&mut tokens),
            answers: Lent::new(&mut answers),
            area: Lent::new(&mut area),
        };
        let mut text: &[u8] = b"P 6 2 2*5 5\nL 2 1 3 0\n";
        let mut buffer = [0u8; 8];
        let mut input = Input::new(&mut text, &mut buffer);
        assert!(rt; matches!(next_case(&mut input, &mut case), Err(Fault::NoCase)));
        assert_eq!(rt; case.numbers, [6, 0, 0]);
        assert_eq!(rt; case.starts.numbers(), [5, 5].as_slice());
        assert!(rt; matches!(input.expect(b'\n'), Ok(())));
        assert!(rt; matches!(next_case(&mut input, &mut case), Ok(Some(Letter::Lookup))));
        assert_eq!(rt; case.tokens.numbers(), [1, 3].as_slice());
        assert_eq!(rt; case.starts.numbers(), [5, 5].as_slice());
        assert!(rt; matches!(next_case(&mut input, &mut case), Ok(None)));
        assert!(rt; input.is_sound());
    }
}
