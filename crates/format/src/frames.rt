// What a line says, read through the reader of one frame.
ghost use Rattle.std.specs.Prelude.{◌≡◌, ◌+◌, ◌*◌, ◌≤◌, length};
ghost use Rattle.hexa.specs.Digits.{number_at};
ghost use Rattle.rules.specs.Writing.{fill};
ghost use Rattle.format.specs.Frames.{fields_of, sizes_by, edge_by, token_count, token_at, all_tokens, frame_of};

use crate::Frame;

// Behind the kind: a number of 4 digits, one of so many digits, one of 2, and the line's end.
#[tactic(auto, unfolding(crate::specs::Frames::fields_of, crate::specs::Frames::three))]
pub fn fields(line: &[u8], digits: usize) -> Option<(u32, u32, u32)>
    requires { digits ≤ 8 }
    ensures { result ≡ fields_of line.now digits }
{
    if !reader::ends(line, 8 + digits) {
        return None;
    }
    let a = reader::field(line, 2, 4)?;
    let b = reader::field(line, 6, digits)?;
    let c = reader::field(line, 6 + digits, 2)?;
    Some((a, b, c))
}

// 01: its three numbers are items, labels and k.
#[tactic(auto, unfolding(crate::specs::Frames::sizes_by))]
fn sizes_frame(fields: Option<(u32, u32, u32)>) -> Frame
    ensures { result ≡ sizes_by fields }
{
    fields.map_or(
        Frame::Faulty,
        |(items, labels, k)| Frame::Sizes { items, labels, k },
    )
}

// 02: its three numbers are source, target and label. Whether they fit the sizes is for the builder to say.
#[tactic(auto, unfolding(crate::specs::Frames::edge_by))]
fn edge_frame(fields: Option<(u32, u32, u32)>) -> Frame
    ensures { result ≡ edge_by fields }
{
    fields.map_or(
        Frame::Faulty,
        |(source, target, label)| Frame::Edge {
            source,
            target,
            label,
        },
    )
}

// How many two digits stand behind the first two.
#[tactic(auto, unfolding(crate::specs::Frames::token_count))]
pub fn token_count(line: &[u8]) -> usize
    ensures { result ≡ token_count line.now }
{
    (line.len() / 2).saturating_sub(1)
}

// Token i, which two digits spell.
fn token_at(line: &[u8], i: usize) -> Option<u8>
    requires { i ≤ 512 }
    ensures { result ≡ number_at line.now (2 + 2 * i) 2 }
{
    let token = reader::field(line, 2 + 2 * i, 2)?;
    Some(token as u8)
}

// Whether tokens and nothing else stand behind the kind.
pub fn all_tokens(line: &[u8]) -> bool
    requires { length line.now ≤ 512 }
    ensures { result ≡ all_tokens line.now }
{
    if line.len() % 2 != 0 {
        return false;
    }
    for i in 0..token_count(line) {
        if token_at(line, i).is_none() {
            return false;
        }
    }
    true
}

// The tokens of a query's line, at the front of a lent list.
pub fn put_tokens(line: &[u8], tokens: &mut [u8])
    requires { (length line.now ≤ 512) × (token_count line.now ≤ length tokens.old) }
    ensures { tokens.new ≡ fill tokens.old 0 (token_count line.now) (token_at line.now) }
{
    for i in 0..token_count(line) {
        tokens[i] = token_at(line, i).unwrap_or(0);
    }
}

// What a line says, by its kind: the number of its first two digits. Another kind, or none, is a bad frame.
#[tactic(auto, unfolding(crate::specs::Frames::frame_of, crate::specs::Frames::frame_by))]
pub fn frame(line: &[u8]) -> Frame
    requires { length line.now ≤ 512 }
    ensures { result ≡ frame_of line.now }
{
    match reader::field(line, 0, 2) {
        Some(1) => sizes_frame(fields(line, 2)),
        Some(2) => edge_frame(fields(line, 4)),
        Some(3) if all_tokens(line) => Frame::Query,
        _ => Frame::Faulty,
    }
}
