// A query, answered from the stored tables.
ghost use Rattle.std.specs.Prelude.{◌≡◌, ◌*◌, ◌≤◌, length, take, replicate};
ghost use Rattle.rules.specs.Levels.{level_of};
ghost use Rattle.rules.specs.Outcomes.{stored};
ghost use Rattle.format.specs.Frames.{tokens_of};
ghost use Rattle.format.specs.Texts.{answer_text};
ghost use Rattle.machine.specs.Machine.{stored_call};
ghost use Rattle.machine.specs.Standing.{line_of, SameLists, SameLine};
ghost use Rattle.lines.specs.Lent.{Found, Ready, Written, Adds};

use format::{frames, texts};
use machine::stages::REFUSAL_BYTES;
use machine::{Run, Tables};
use rules::Refusal;

// Where the table of level k ends in the list of all levels.
fn table_end(items: u32, k: u32) -> usize
    requires { (items ≤ 32) × (k ≤ 4) }
    ensures { result ≡ k * (items * items) }
{
    (k * (items * items)) as usize
}

// The stored answer to a list of tokens. The working area does not outlive a query.
fn ask_tokens(
    tables: Tables,
    tokens: &[u8],
    levels: &[u32],
    entries: &[u32],
    answers: &mut [u32; 1024],
) -> Result<u32, Refusal>
    requires { (length levels.now ≡ 4096) × (length entries.now ≡ 4096) × (answers.old ≡ replicate 1024 0) }
    ensures { Found (stored_call tables.sizes.items tables.sizes.labels (level_of tables.sizes.items levels.now tables.sizes.k) (take tables.entries entries.now) tokens.now) result answers.new }
{
    let items = tables.sizes.items;
    let to = table_end(items, tables.sizes.k);
    let from = to - table_end(items, 1);
    let mut area = [0; 9216];
    index::stored(
        items,
        tables.sizes.labels,
        &levels[from..to],
        &entries[..tables.entries],
        tokens,
        answers,
        &mut area,
    )
}

// The tokens of a query's line stand in it as digits: they are read into a list of their own, and the answer to them is written at a place of the
// output. The answers do not outlive a query.
pub fn ask(
    tables: Tables,
    line: &[u8],
    levels: &[u32],
    entries: &[u32],
    at: usize,
    out: &mut [u8],
) -> usize
    requires { (length line.now ≤ 512) × Ready levels.now entries.now at out.old }
    ensures { Written (answer_text (stored (stored_call tables.sizes.items tables.sizes.labels (level_of tables.sizes.items levels.now tables.sizes.k) (take tables.entries entries.now) (tokens_of line.now)))) result at out.old out.new }
{
    let mut tokens = [0; 255];
    frames::put_tokens(line, &mut tokens);
    let many = frames::token_count(line);
    let mut answers = [0; 1024];
    match ask_tokens(tables, &tokens[..many], levels, entries, &mut answers) {
        Ok(many) => {
            texts::put_list(out, at, many, &answers);
            7 + 4 * (many as usize)
        }
        Err(refusal) => {
            texts::put_refusal(out, at, refusal);
            REFUSAL_BYTES
        }
    }
}

// The answer to the line in hand, behind at most the 81 line.
pub fn ask_run(run: &mut Run, tables: Tables, at: usize) -> usize
    requires { at ≤ 15 }
    ensures added { Adds (answer_text (stored (stored_call tables.sizes.items tables.sizes.labels (level_of tables.sizes.items run.old.levels tables.sizes.k) (take tables.entries run.old.entries) (tokens_of (line_of run.old))))) result at run.old run.new }
    ensures kept { SameLists run.old run.new × SameLine run.old run.new }
{
    ask(
        tables,
        &run.part[..run.held],
        &run.levels,
        &run.entries,
        at,
        &mut run.out,
    )
}
