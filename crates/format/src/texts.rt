// The lines of the output, written at a place of a lent list: 81 for the tables, 83 for an answer, FF for a refusal.
ghost use Rattle.std.specs.Prelude.{◌≡◌, [], ◌+◌, ◌*◌, ◌≤◌, length, take};
ghost use Rattle.std.proofs.lemmas.List.Edits.{sets};
ghost use Rattle.format.specs.Texts.{refusal_text, built_text, positions, list_text};

use rules::{Counts, Refusal};

// FF, the number of the refusal, and its place or need: 13 bytes.
pub fn put_refusal(out: &mut [u8], at: usize, refusal: Refusal)
    requires { at + 13 ≤ length out.old }
    ensures { out.new ≡ sets out.old at (refusal_text refusal) }
{
    let told = reports::report_refusal(refusal);
    hexa::put_digits(out, at, 2, 0xff);
    hexa::put_digits(out, at + 2, 2, told.number);
    hexa::put_digits(out, at + 4, 8, told.a);
    out[at + 12] = b'\n';
}

// 81, the number of classes, of connected pairs and of entries: 15 bytes.
pub fn put_built(out: &mut [u8], counts: Counts)
    requires { 15 ≤ length out.old }
    ensures { out.new ≡ sets out.old 0 (built_text counts.classes counts.pairs counts.entries) }
{
    hexa::put_digits(out, 0, 2, 0x81);
    hexa::put_digits(out, 2, 4, counts.classes);
    hexa::put_digits(out, 6, 4, counts.pairs);
    hexa::put_digits(out, 10, 4, counts.entries);
    out[14] = b'\n';
}

// The positions of a list, four digits each.
pub fn put_positions(out: &mut [u8], at: usize, list: &[u32])
    requires { at + 4 * length list.now ≤ length out.old }
    ensures { out.new ≡ sets out.old at (positions list.now []) }
{
    for (i, position) in list.iter().enumerate() {
        hexa::put_digits(out, at + 4 * i, 4, *position);
    }
}

// 83, how many, and the positions: seven bytes, and four for each. How many is a u32, as a number of the output is; the length of a slice
// would be a usize, which a caller had to bound.
pub fn put_list(out: &mut [u8], at: usize, many: u32, list: &[u32])
    requires { (at + 7 + 4 * many ≤ length out.old) × (many ≤ length list.now) }
    ensures { out.new ≡ sets out.old at (list_text many (take many list.now)) }
{
    let count = many as usize;
    hexa::put_digits(out, at, 2, 0x83);
    hexa::put_digits(out, at + 2, 4, many);
    put_positions(out, at + 6, &list[..count]);
    out[at + 6 + 4 * count] = b'\n';
}
