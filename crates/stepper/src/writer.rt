// The writing of a function's steps, and what each part of it does: a step more, a value more or less on the pile, another target for a jump.
ghost use Rattle.std.specs.Prelude.{◌≡◌, ◌+◌, min};
ghost use Rattle.middle.specs.Steps.{seen};
ghost use Rattle.stepper.specs.Stands.{Stepped, Aimed, Put, Lowered, Topped, Popped};

use crate::swap::swap_target;
use middle::step::Step;
use middle::write::push_step;
use rows::row::Row;

// Where the writing stands, the pile of places where values wait, and the row that the steps go to.
#[derive(Drop)]
pub struct Writer<'a, 'b> {
    // the word of the row where the steps begin
    pub first: usize,
    // the first place for a value that waits
    pub base: u32,
    // how many values wait
    pub height: u32,
    // the last jump that waits for its target; its target field says which waited before
    pub waiting: u32,
    // where the innermost loop begins; the step before it waits for the loop's end, and says where the loop around begins
    pub head: u32,
    // the number of the next step
    pub next: u32,
    pub pile: &'a mut [u32],
    pub out: &'a mut Row<'b>,
}

impl Writer<'_, '_> {
    pub fn write(&mut self, step: Step)
        ensures { Stepped self.old self.new (seen step) }
    {
        push_step(self.out, step);
        self.next = self.next.saturating_add(1);
    }

    // Another target for a jump that was written, by its number; what the target was.
    pub fn swap_target(&mut self, jump: u32, target: u32) -> u32
        ensures { Aimed self.old self.new jump target result }
    {
        swap_target(self.out, self.first, jump, target)
    }

    // The first free place.
    pub fn place(&self) -> u32
        ensures { result ≡ min (self.now.base + self.now.height) 4294967295 }
    {
        self.base.saturating_add(self.height)
    }

    // A value more.
    pub fn put(&mut self, word: u32)
        ensures { Put self.old self.new word }
    {
        let top = self.height as usize;
        self.height = self.height.saturating_add(1);
        // by its place: of a list that was lent by `get_mut` from a field nothing is known
        if top < self.pile.len() {
            self.pile[top] = word;
        }
    }

    // So many values less.
    pub fn lower(&mut self, count: u32)
        ensures { Lowered self.old self.new count }
    {
        self.height = self.height.saturating_sub(count);
    }

    // The own word that the value on top is; none if it is in its temporary place.
    fn top(&self) -> Option<u32>
        ensures { Topped self.now result }
    {
        let top = self.height.checked_sub(1)?;
        let word = *self.pile.get(top as usize)?;
        (word < self.base).then_some(word)
    }

    // Takes the value on top off.
    pub fn pop(&mut self) -> Option<u32>
        ensures { Popped self.old self.new result }
    {
        let own = self.top();
        self.lower(1);
        own
    }
}
