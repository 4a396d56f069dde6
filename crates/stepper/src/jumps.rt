// Nodes that leave the pile as it is: jumps, and what a function ends with.
ghost use Rattle.generator.specs.Resolved.{v_else, v_loop, v_again, v_break, v_next, v_end};
ghost use Rattle.stepper.specs.Stands.{Landed, Turned};

use crate::writer::Writer;
use middle::step::Step;

impl Writer<'_, '_> {
    // The last jump that waits comes here.
    pub fn land(&mut self)
        ensures { Landed self.old self.new }
    {
        self.waiting = self.swap_target(self.waiting, self.next);
    }

    // The last jump that waits comes behind this one, which waits in its stead.
    pub fn otherwise(&mut self)
        ensures { Turned v_else self.old self.new }
    {
        let jump = self.next;
        let before = self.swap_target(self.waiting, self.next.saturating_add(1));
        self.write(Step::Jump(before));
        self.waiting = jump;
    }

    // A jump over the step before the loop's head, which waits for the loop's end and says where the loop around begins.
    pub fn open_loop(&mut self)
        ensures { Turned v_loop self.old self.new }
    {
        let head = self.next.saturating_add(2);
        self.write(Step::Jump(head));
        self.write(Step::Jump(self.head));
        self.head = head;
    }

    // Back to the loop's head; the step before that comes behind this one.
    pub fn again(&mut self)
        ensures { Turned v_again self.old self.new }
    {
        let around = self.swap_target(self.head.saturating_sub(1), self.next.saturating_add(1));
        self.write(Step::Jump(self.head));
        self.head = around;
    }

    pub fn leave(&mut self)
        ensures { Turned v_break self.old self.new }
    {
        self.write(Step::Jump(self.head.saturating_sub(1)));
    }

    pub fn go_on(&mut self)
        ensures { Turned v_next self.old self.new }
    {
        self.write(Step::Jump(self.head));
    }

    // A function that comes to its end gives 0.
    pub fn end(&mut self)
        ensures { Turned v_end self.old self.new }
    {
        let value = self.place();
        self.write(Step::Num(value, 0));
        self.write(Step::Ret(value));
    }
}
