// Nodes that want the value on top in its temporary place: tests.
ghost use Rattle.generator.specs.Resolved.{v_if, v_or, v_join, v_while};
ghost use Rattle.stepper.specs.Stands.{Settled, Turned};

use crate::writer::Writer;
use middle::step::Step;

impl Writer<'_, '_> {
    // Takes the value on top off and sees that it is in its temporary place, which is the first free one then.
    pub fn settle(&mut self) -> u32
        ensures { Settled self.old self.new result }
    {
        let own = self.pop();
        let place = self.place();
        if let Some(own) = own {
            self.write(Step::Copy(place, own));
        }
        place
    }

    // A jump that waits, past what is done only if the value is not 0.
    pub fn test(&mut self)
        ensures { Turned v_if self.old self.new }
    {
        let value = self.settle();
        let jump = self.next;
        self.write(Step::JumpZero(value, self.waiting));
        self.waiting = jump;
    }

    // If the value is not 0 the result is 1, and a jump that waits goes past the second value.
    pub fn or_test(&mut self)
        ensures { Turned v_or self.old self.new }
    {
        let value = self.settle();
        let jump = self.next.saturating_add(2);
        self.write(Step::JumpZero(value, self.next.saturating_add(3)));
        self.write(Step::Num(value, 1));
        self.write(Step::Jump(self.waiting));
        self.waiting = jump;
    }

    // The second value is made 0 or 1, and the jump past it comes here.
    pub fn join(&mut self)
        ensures { Turned v_join self.old self.new }
    {
        let value = self.settle();
        self.make(Step::Flag(value, value));
        self.land();
    }

    // A loop's test: a jump to the step before the loop's head, which leads to its end.
    pub fn stay(&mut self)
        ensures { Turned v_while self.old self.new }
    {
        let value = self.settle();
        self.write(Step::JumpZero(value, self.head.saturating_sub(1)));
    }
}
