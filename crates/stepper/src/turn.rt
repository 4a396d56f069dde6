// One node.
ghost use Rattle.stepper.specs.Nodes.{meant};
ghost use Rattle.stepper.specs.Stands.{Turned};

use crate::node::Node;
use crate::writer::Writer;
use middle::step::Step;

impl Writer<'_, '_> {
    pub fn turn(&mut self, node: Node)
        ensures { Turned (meant node) self.old self.new }
    {
        match node {
            Node::Num(n) => self.make(Step::Num(self.place(), n)),
            Node::Own(k) => self.put(k),
            Node::Copy(k) => self.make(Step::Copy(self.place(), k)),
            Node::Get(i) => self.make(Step::GetWord(self.place(), i)),
            Node::Bin(o) => self.binary(o),
            Node::Un(o) => self.unary(o),
            Node::And => self.test(),
            Node::Or => self.or_test(),
            Node::Join => self.join(),
            Node::Call(f, n) => self.call(f, n),
            Node::Set(k) => {
                let value = self.settle();
                self.write(Step::Copy(k, value));
            }
            Node::SetWord(i) => {
                let value = self.settle();
                self.write(Step::SetWord(i, value));
            }
            Node::Clear => {
                let value = self.settle();
                self.write(Step::Num(value, 0));
            }
            Node::Forget => {
                self.settle();
            }
            Node::Out => {
                let value = self.take();
                self.write(Step::Out(value));
            }
            Node::If => self.test(),
            Node::Else => self.otherwise(),
            Node::Fi => self.land(),
            Node::Loop => self.open_loop(),
            Node::While => self.stay(),
            Node::Again => self.again(),
            Node::Ret => {
                let value = self.take();
                self.write(Step::Ret(value));
            }
            Node::Break => self.leave(),
            Node::Next => self.go_on(),
            Node::End => self.end(),
        }
    }
}
