// Nodes that give a value, which waits on the pile.
ghost use Rattle.generator.specs.Resolved.{v_bin, v_un, v_call};
ghost use Rattle.middle.specs.Steps.{seen};
ghost use Rattle.stepper.specs.Stands.{Made, Took, Turned};

use crate::writer::Writer;
use middle::step::Step;

impl Writer<'_, '_> {
    // A step that gives a value in the first free place.
    pub fn make(&mut self, step: Step)
        ensures { Made (seen step) self.old self.new }
    {
        let place = self.place();
        self.write(step);
        self.put(place);
    }

    // Takes the value on top off: an own word where it stands, any other in its temporary place, which is the first free one then.
    pub fn take(&mut self) -> u32
        ensures { Took self.old self.new result }
    {
        let own = self.pop();
        own.unwrap_or(self.place())
    }

    pub fn binary(&mut self, operator: u32)
        ensures { Turned (v_bin operator) self.old self.new }
    {
        let right = self.pop();
        let left = self.pop();
        let result = self.place();
        let left = left.unwrap_or(result);
        let right = right.unwrap_or(result.saturating_add(1));
        self.make(Step::Bin(operator, result, left, right));
    }

    pub fn unary(&mut self, operator: u32)
        ensures { Turned (v_un operator) self.old self.new }
    {
        let value = self.take();
        let result = self.place();
        self.make(Step::Un(operator, result, value));
    }

    // The arguments wait one above the other, and the result comes where the first of them was.
    pub fn call(&mut self, function: u32, arguments: u32)
        ensures { Turned (v_call function arguments) self.old self.new }
    {
        self.lower(arguments);
        let result = self.place();
        self.make(Step::Call(result, function, result, arguments));
    }
}
