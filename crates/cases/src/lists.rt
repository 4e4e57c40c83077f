// A list that is lent with all the room that it may need: its first `count` numbers are those of the case.

#[derive(Drop)]
pub struct Lent<'a, T> {
    room: &'a mut [T],
    count: usize,
}

impl<'a, T> Lent<'a, T> {
    pub fn new(room: &'a mut [T]) -> Lent<'a, T> {
        Lent { room, count: 0 }
    }

    pub fn numbers(&self) -> &[T] {
        let count = self.count.min(self.room.len());
        &self.room[..count]
    }

    pub fn numbers_mut(&mut self) -> &mut [T] {
        let count = self.count.min(self.room.len());
        let room = &mut *self.room;
        &mut room[..count]
    }

    // Makes it as many numbers, if there is room for them, and says whether there is.
    pub fn resize(&mut self, count: usize) -> bool {
        let fits = count <= self.room.len();
        if fits {
            self.count = count;
        }
        fits
    }
}
