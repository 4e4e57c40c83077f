// A case: the numbers that its entry takes, in their order, and its lists.
use crate::lists::Lent;

#[derive(Drop)]
pub struct Case<'a> {
    pub numbers: [u32; 3],
    pub edges: Lent<'a, u32>,
    pub levels: Lent<'a, u32>,
    pub starts: Lent<'a, u32>,
    pub order: Lent<'a, u32>,
    pub entries: Lent<'a, u32>,
    pub tokens: Lent<'a, u8>,
    pub answers: Lent<'a, u32>,
    pub area: Lent<'a, u8>,
}
